//! The labels of levels, and names, as lines show them.

ghost use Rattle.std.specs.Prelude.{◌≡◌, ◌+◌, ◌≤◌, ◌++◌, length};
ghost use Rattle.le_rec.specs.Name.{shown_name};
ghost use Rattle.level_starts.specs.Holders.{AreLabelHolders};
ghost use Rattle.level_starts.specs.Starts.{LevelStartsAt};
ghost use Rattle.line_io.specs.declared.text_line.TheConstants.{ROOM};
ghost use Rattle.wad_dir.specs.Entries.{names};
ghost use Rattle.lens_texts.specs.Label.{IsLabelOf, entry_text, label_text, named_text};

use crate::opened::label_of;
use le_rec::Name8;
use level_starts::Holders;
use line_io::TextLine;
use std::alloc::Allocator;
use wad_dir::Set;

/// The label of a level in its file.
#[derive(Clone, Copy, Debug, PartialEq, Eq)]
pub struct LevelLabel {
    pub name: Name8,
    /// The number of its entry.
    pub entry: u64,
    /// Whether looking the name up, as a query, gives another entry or none.
    pub hidden: bool,
}

/// The label of the level that starts at an entry. What a look-up of its file's labels gives is known.
pub fn label_by<A: Allocator, B: Allocator + Copy>(
    set: &Set<'_, A>,
    holders: &Holders<B>,
    g: usize,
) -> LevelLabel
    requires starts { LevelStartsAt (names set.now) g }
    requires holders { AreLabelHolders (names set.now) holders.now.holders }
    ensures { IsLabelOf set.now g result }
{
    let name = label_of(set, g);
    LevelLabel {
        name,
        entry: g as u64,
        hidden: holders.is_hidden(&name, g),
    }
}

/// The same by a look-up in the file, which goes over its entries.
pub fn label_looked_up<A: Allocator>(set: &Set<'_, A>, g: usize) -> LevelLabel
    requires { LevelStartsAt (names set.now) g }
    ensures { IsLabelOf set.now g result }
{
    let name = label_of(set, g);
    LevelLabel {
        name,
        entry: g as u64,
        hidden: set.find(Name8::query(&name.bytes())) != Some(g),
    }
}

/// Puts a label before the line: its name as it is shown, and ` (entry G)` behind it, where it is hidden.
pub fn prepend_label(line: &mut TextLine, label: &LevelLabel)
    requires { length line.old ≤ 20 }
    ensures text { line.new ≡ label_text label.now line.old }
    ensures length { length line.new ≤ length line.old + 61 }
{
    prepend_entry(line, label);
    prepend_name(line, label.name);
}

// Puts ` (entry G)` before the line, where the label is hidden.
fn prepend_entry(line: &mut TextLine, label: &LevelLabel)
    requires { length line.old ≤ 20 }
    ensures text { line.new ≡ entry_text label.now line.old }
    ensures length { length line.new ≤ length line.old + 29 }
{
    if label.hidden {
        line.prepend_bytes(b")");
        line.prepend_natural(label.entry);
        line.prepend_bytes(b" (entry ");
    }
}

/// Puts a name as it is shown before the line.
pub fn prepend_name(line: &mut TextLine, name: Name8)
    requires { length line.old + 32 ≤ ROOM }
    ensures text { line.new ≡ shown_name name ++ line.old }
    ensures length { length line.new ≤ length line.old + 32 }
{
    let mut shown = [0; 32];
    let len = name.shown(&mut shown);
    line.prepend_bytes(&shown[..len]);
}

/// Puts the name of eight bytes as it is shown before the line, or that it is empty.
pub fn prepend_named(line: &mut TextLine, bytes: [u8; 8])
    requires { length line.old ≤ 56 }
    ensures text { line.new ≡ named_text bytes line.old }
    ensures length { length line.new ≤ length line.old + 32 }
{
    if bytes[0] == 0 {
        line.prepend_bytes(b"(empty)");
    } else {
        prepend_name(line, Name8::stored(bytes));
    }
}
