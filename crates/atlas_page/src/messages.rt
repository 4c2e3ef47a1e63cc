//! The messages of a card: what a check says of its level, each linked to its place in the level's picture.

ghost use Rattle.std.specs.Prelude.{◌≡◌, [], false, IfOk};
ghost use Rattle.line_io.specs.Writes.{Writes};
ghost use Rattle.lens_engines.specs.Found.{IsFoundAt};
ghost use Rattle.lens_texts.specs.Owners.{AreOwners};
ghost use Rattle.atlas_page.specs.Messages.{item_start, left_item, link_ends, link_start, linked_text, message_item, messages_part, within_link};
ghost use Rattle.atlas_page.specs.MapView.{view_text};

use crate::map_view::{MapView, prepend_view, view_of};
use crate::picture_name::write_picture_name;
use le_rec::Sink;
use lens_engines::{Judged, write_found};
use lens_texts::parts::{TextParts, write_parts};
use lens_texts::{PlaceEnds, Remark, WriteRemarks, owners_of, write_words};
use level_codes::ReportCode;
use line_io::{IoFault, TextLine, emit};
use map_level::Level;
use memory_streams::ToVec;
use std::alloc::{AllocError, Allocator, Global};

/// The messages of a card, each an item of a list.
#[derive(Drop)]
pub struct Messages {
    items: Vec<u8>,
}

impl Messages {
    /// No message.
    pub fn none(global: Global) -> Messages
        ensures { result.items.items ≡ [] }
    {
        Messages {
            items: Vec::new(global),
        }
    }

    /// What is found at a level that was looked over: at most so many findings of one code, and as many warnings as were kept.
    pub fn of<A: Allocator + Copy>(
        alloc: A,
        global: Global,
        judged: &Judged<'_, '_, A>,
        form: &MessageItems,
        most: u64,
    ) -> Result<Messages, AllocError>
        ensures { IfOk result (λ messages. IsFoundAt (message_item form.now) left_item most judged.now messages.items.items) }
    {
        let owners = owners_of(alloc, judged.level())?;
        let mut out = ToVec::new(global);
        match write_found(judged, &owners, form, most, &mut out) {
            Ok(()) => {
                let mut items = out.into_vec();
                // The page keeps them for all levels.
                items.shrink_to_fit();
                Ok(Messages { items })
            }
            Err(_) => Err(AllocError),
        }
    }

    /// Their items.
    pub fn items(&self) -> &[u8]
        ensures { result.now ≡ self.now.items.items }
    {
        &self.items
    }
}

/// How the messages of a card are written: each as an item of a list, linked to its place in the level's picture.
#[derive(Clone, Copy)]
pub struct MessageItems {
    /// The number of the level's file, from 1.
    pub file: u64,
    /// The number of its label among the file's entries.
    pub entry: u64,
    /// Whether there is a picture.
    pub drawn: bool,
}

impl WriteRemarks for MessageItems {
    ghost use Rattle.atlas_page.specs.Messages.{left_item, message_item};

    ghost text = { λ form. message_item form };

    ghost left = { λ _. left_item };

    fn write_remark<W: Sink>(
        &self,
        level: &Level<'_>,
        owners: &[Option<u32>],
        remark: Remark,
        out: &mut W,
    ) -> Result<(), IoFault> {
        write_message(self, level, owners, remark, out)
    }

    fn write_left<W: Sink>(
        &self,
        code: ReportCode,
        count: u64,
        out: &mut W,
    ) -> Result<(), IoFault> {
        let mut line = TextLine::new();
        prepend_left(&mut line, code, count);
        emit(out, line.as_bytes())
    }
}

// Writes the item of a message.
fn write_message<W: Sink>(
    form: &MessageItems,
    level: &Level<'_>,
    owners: &[Option<u32>],
    remark: Remark,
    out: &mut W,
) -> Result<(), IoFault>
    requires owners { AreOwners level.now owners.now }
    requires sound { (W.state out.old).failed ≡ false }
    ensures { Writes (W.state out.old) (W.state out.new) (message_item form.now level.now remark) result }
{
    write_start(remark.code(), out)?;
    write_linked(form, level, owners, remark, out)?;
    emit(out, b"</li>\n")
}

// Writes what an item begins with.
fn write_start<W: Sink>(code: ReportCode, out: &mut W) -> Result<(), IoFault>
    requires { (W.state out.old).failed ≡ false }
    ensures { Writes (W.state out.old) (W.state out.new) (item_start code) result }
{
    let mut line = TextLine::new();
    prepend_start(&mut line, code);
    emit(out, line.as_bytes())
}

// `<li class="{class}">`
fn prepend_start(line: &mut TextLine, code: ReportCode)
    requires { line.old ≡ [] }
    ensures { line.new ≡ item_start code }
{
    line.prepend_bytes(b"\">");
    line.prepend_bytes(code.class().name());
    line.prepend_bytes(b"<li class=\"");
}

// `<li class="{class}">{code}: {left} more</li>`
fn prepend_left(line: &mut TextLine, code: ReportCode, left: u64)
    requires { line.old ≡ [] }
    ensures { line.new ≡ left_item code left }
{
    line.prepend_bytes(b" more</li>\n");
    line.prepend_natural(left);
    line.prepend_bytes(b": ");
    line.prepend_bytes(code.name());
    line.prepend_bytes(b"\">");
    line.prepend_bytes(code.class().name());
    line.prepend_bytes(b"<li class=\"");
}

// Writes a message, within a link if there is something to link to.
fn write_linked<W: Sink>(
    form: &MessageItems,
    level: &Level<'_>,
    owners: &[Option<u32>],
    remark: Remark,
    out: &mut W,
) -> Result<(), IoFault>
    requires owners { AreOwners level.now owners.now }
    requires sound { (W.state out.old).failed ≡ false }
    ensures { Writes (W.state out.old) (W.state out.new) (linked_text form.now level.now remark) result }
{
    match link_ends(form, level, owners, remark) {
        Some(ends) => write_within(form, &ends, level, owners, remark, out),
        None => write_words(level, owners, remark, out),
    }
}

// Writes a message within a link to a place.
fn write_within<W: Sink>(
    form: &MessageItems,
    ends: &PlaceEnds,
    level: &Level<'_>,
    owners: &[Option<u32>],
    remark: Remark,
    out: &mut W,
) -> Result<(), IoFault>
    requires owners { AreOwners level.now owners.now }
    requires sound { (W.state out.old).failed ≡ false }
    ensures { Writes (W.state out.old) (W.state out.new) (within_link form.now ends.now level.now remark) result }
{
    write_link(form, ends, out)?;
    write_words(level, owners, remark, out)?;
    emit(out, b"</a>")
}

// The place that a message is linked to: its own, if there is a picture.
fn link_ends(
    form: &MessageItems,
    level: &Level<'_>,
    owners: &[Option<u32>],
    remark: Remark,
) -> Option<PlaceEnds>
    requires { AreOwners level.now owners.now }
    ensures { result ≡ link_ends form.now level.now remark }
{
    if form.drawn {
        remark.ends(level, owners)
    } else {
        None
    }
}

// What a link begins with.
#[derive(Drop)]
struct LinkStart {
    file: u64,
    entry: u64,
    view: MapView,
}

impl TextParts for LinkStart {
    ghost use Rattle.atlas_page.specs.Messages.{link_parts};

    ghost parts = { λ start. link_parts start.file start.entry start.view };

    fn count(&self) -> usize {
        4
    }

    fn write<W: Sink>(&self, number: usize, out: &mut W) -> Result<(), IoFault> {
        match number {
            0 => emit(out, b"<a href=\""),
            1 => write_picture_name(self.file, self.entry, out),
            2 => write_view(&self.view, out),
            _ => emit(out, b"\">"),
        }
    }
}

// Writes what the link to a place in the level's picture begins with.
fn write_link<W: Sink>(form: &MessageItems, ends: &PlaceEnds, out: &mut W) -> Result<(), IoFault>
    requires { (W.state out.old).failed ≡ false }
    ensures { Writes (W.state out.old) (W.state out.new) (link_start form.now ends.now) result }
{
    let start = LinkStart {
        file: form.file,
        entry: form.entry,
        view: view_of(ends),
    };
    write_parts(&start, out)
}

// Writes the part of a picture.
fn write_view<W: Sink>(view: &MapView, out: &mut W) -> Result<(), IoFault>
    requires { (W.state out.old).failed ≡ false }
    ensures { Writes (W.state out.old) (W.state out.new) (view_text view.now) result }
{
    let mut line = TextLine::new();
    prepend_view(&mut line, view);
    emit(out, line.as_bytes())
}

// The list of a card's messages.
#[derive(Drop)]
struct MessageList<'m> {
    items: &'m [u8],
}

impl TextParts for MessageList<'_> {
    ghost use Rattle.atlas_page.specs.Messages.{list_parts};

    ghost parts = { λ list. list_parts list.items.now };

    fn count(&self) -> usize {
        3
    }

    fn write<W: Sink>(&self, number: usize, out: &mut W) -> Result<(), IoFault> {
        match number {
            0 => emit(out, b"<ul class=\"messages\">\n"),
            1 => emit(out, self.items),
            _ => emit(out, b"</ul>\n"),
        }
    }
}

/// Writes the list of a card's messages, if it has any.
pub fn write_messages<W: Sink>(items: &[u8], out: &mut W) -> Result<(), IoFault>
    requires { (W.state out.old).failed ≡ false }
    ensures { Writes (W.state out.old) (W.state out.new) (messages_part items.now) result }
{
    if items.len() == 0 {
        return emit(out, b"");
    }
    write_parts(&MessageList { items }, out)
}
