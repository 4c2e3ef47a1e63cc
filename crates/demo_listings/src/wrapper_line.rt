//! What stands before a demo and behind its header, in a line.

ghost use Rattle.std.specs.Prelude.{◌≡◌, ◌+◌, ◌≤◌, ◌++◌, [], codes, length, Some};
ghost use Rattle.std.specs.Option.{option_copied};
ghost use Rattle.later_demos.specs.declared.wrapper.Wrapper.TheVariants as wrapper;
ghost use Rattle.demo_listings.specs.Listing.{key_frame_text, labelled, wrapper_line};

use crate::numbers::{prepend_labelled, prepend_map_name};
use later_demos::{DsdaWrapper, Wrapper};
use line_io::TextLine;

/// `wrapper DSDA 2 marker 141 tics 3 flags 0`, `wrapper PR+UM 1 map_name MAP05`; nothing of a demo without a wrapper.
pub fn prepend_wrapper_line(line: &mut TextLine, wrapper: Option<Wrapper>, frame: Option<&[u8]>)
    requires { line.old ≡ [] }
    ensures { line.new ≡ wrapper_line wrapper (option_copied frame.entry) }
{
    match wrapper {
        None => {}
        Some(Wrapper::Dsda(dsda)) => prepend_dsda(line, dsda, frame),
        Some(Wrapper::PrUm(name)) => {
            line.prepend_bytes(b"\n");
            prepend_map_name(line, name);
            line.prepend_bytes(b"wrapper PR+UM 1 map_name ");
        }
    }
}

fn prepend_dsda(line: &mut TextLine, dsda: DsdaWrapper, frame: Option<&[u8]>)
    requires { line.old ≡ [] }
    ensures { line.new ≡ wrapper_line (Some (wrapper.Dsda dsda)) (option_copied frame.entry) }
{
    line.prepend_bytes(b"\n");
    prepend_key_frame(line, frame);
    prepend_labelled(line, b" flags", u64::from(dsda.flags));
    prepend_labelled(line, b" tics", u64::from(dsda.tics));
    prepend_labelled(line, b" marker", u64::from(dsda.marker));
    prepend_small_labelled(line, dsda.version);
}

fn prepend_small_labelled(line: &mut TextLine, version: u8)
    requires { length line.old ≤ 120 }
    ensures { line.new ≡ labelled (codes "wrapper DSDA") version ++ line.old }
{
    line.prepend_small(version);
    line.prepend_bytes(b" ");
    line.prepend_bytes(b"wrapper DSDA");
}

fn prepend_key_frame(line: &mut TextLine, frame: Option<&[u8]>)
    requires { length line.old ≤ 1 }
    ensures text { line.new ≡ key_frame_text (option_copied frame.entry) ++ line.old }
    ensures length { length line.new ≤ length line.old + 31 }
{
    let Some(frame) = frame else {
        return;
    };
    prepend_labelled(line, b" key_frame", frame.len() as u64);
}
