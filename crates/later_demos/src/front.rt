//! What stands before the commands of a demo.

ghost use Rattle.std.specs.Prelude.{◌≡◌, ◌<◌, ◌≤◌, ◌+◌, ◌^◌, IfErr, IfOk, Some, None, drop, length};
ghost use Rattle.later_demos.specs.Front.{IsFramed, IsFront, IsInner};
ghost use Rattle.later_demos.specs.Refusal.{first_refusal, inner_refusal, key_frame_refusal};
ghost use Rattle.later_demos.specs.Wrapper.{size_of};

use crate::fault::LaterFault;
use crate::header::{header_size, read_header};
use crate::layout::Layout;
use crate::numbers::little32_at;
use crate::wrapper::{Wrapper, has_key_frame, read_wrapper, size_of};

/// What stands before the commands, and the bytes from the first command on.
#[derive(Clone, Copy)]
pub(crate) struct Front<'a> {
    pub(crate) wrapper: Option<Wrapper>,
    pub(crate) layout: Layout,
    pub(crate) header: &'a [u8],
    pub(crate) key_frame: Option<&'a [u8]>,
    pub(crate) commands: &'a [u8],
}

/// A key frame, where there is one, and the bytes behind it.
#[derive(Clone, Copy)]
pub(crate) struct Framed<'a> {
    pub(crate) key_frame: Option<&'a [u8]>,
    pub(crate) commands: &'a [u8],
}

/// What stands before the commands of a demo, or the first reason why bytes are none.
#[tactic(auto, unfolding(crate::specs::Refusal::first_refusal, crate::specs::Refusal::behind_wrapper))]
pub(crate) fn read_front(bytes: &[u8]) -> Result<Front<'_>, LaterFault>
    ensures ok { IfOk result (λ front. IsFront bytes.now front) }
    ensures refused { IfErr result (λ fault. first_refusal bytes.now ≡ Some fault) }
{
    if bytes.is_empty() {
        return Err(LaterFault::Empty);
    }
    let wrapper = read_wrapper(bytes)?;
    read_inner(wrapper, &bytes[size_of(wrapper)..])
}

// The same of the bytes behind a wrapper.
#[tactic(auto, unfolding(crate::specs::Refusal::inner_refusal, crate::specs::Refusal::header_of, crate::specs::Refusal::behind_header))]
fn read_inner(wrapper: Option<Wrapper>, bytes: &[u8]) -> Result<Front<'_>, LaterFault>
    ensures ok { IfOk result (λ front. IsInner wrapper bytes.now front) }
    ensures refused { IfErr result (λ fault. inner_refusal wrapper bytes.now ≡ Some fault) }
{
    let before = size_of(wrapper);
    if bytes.is_empty() {
        return Err(LaterFault::Short(before as u64, before as u64 + 1));
    }
    let layout = read_header(before, bytes)?;
    let size = header_size(&layout, bytes);
    let framed = read_frame(wrapper, &bytes[size..])?;
    Ok(Front {
        wrapper,
        layout,
        header: &bytes[..size],
        key_frame: framed.key_frame,
        commands: framed.commands,
    })
}

// The key frame behind a header, where the wrapper says that there is one.
#[tactic(auto, unfolding(crate::specs::Refusal::key_frame_refusal, crate::specs::Refusal::frame_of, crate::specs::Refusal::behind_frame))]
fn read_frame(wrapper: Option<Wrapper>, bytes: &[u8]) -> Result<Framed<'_>, LaterFault>
    ensures ok { IfOk result (λ framed. IsFramed wrapper bytes.now framed) }
    ensures allowed { IfOk result (λ _. key_frame_refusal wrapper bytes.now ≡ None) }
    ensures refused { IfErr result (λ fault. key_frame_refusal wrapper bytes.now ≡ Some fault) }
{
    if !has_key_frame(wrapper) {
        return Ok(Framed {
            key_frame: None,
            commands: bytes,
        });
    }
    if bytes.len() < 4 {
        return Err(LaterFault::KeyFrame);
    }
    let size = 4 + little32_at(bytes, 0) as usize;
    if bytes.len() < size {
        return Err(LaterFault::KeyFrame);
    }
    Ok(Framed {
        key_frame: Some(&bytes[4..size]),
        commands: &bytes[size..],
    })
}
