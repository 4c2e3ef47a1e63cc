//! The options of a header, and the bytes of a header that belong to nothing.

ghost use Rattle.std.specs.Prelude.{◌≡◌, ◌<◌, ◌≤◌, ◌++◌, [], ◌∷◌, codes, false, length, map};
ghost use Rattle.std.specs.List.{list_any, range_with_len};
ghost use Rattle.later_demos.specs.Field.{comp_of, number_in};
ghost use Rattle.lens_texts.specs.Parts.{joined};
ghost use Rattle.line_io.specs.Writes.{Writes};
ghost use Rattle.demo_listings.specs.Listing.{byte_text, comp_text, has_options, is_left_over, option_text, options, options_line, unread_line};

use crate::numbers::{prepend_labelled, prepend_numbers};
use later_demos::{Engine, Field, LaterDemo, Part};
use le_rec::Sink;
use lens_texts::parts::{TextParts, write_parts};
use line_io::{IoFault, TextLine, emit};

/// The fields that Doom's headers haven't, in the order of their places.
const OPTIONS: [Field; 19] = [
    Field::Compatibility,
    Field::MonstersRemember,
    Field::VariableFriction,
    Field::WeaponRecoil,
    Field::AllowPushers,
    Field::PlayerBobbing,
    Field::DemoInsurance,
    Field::RngSeed,
    Field::MonsterInfighting,
    Field::Dogs,
    Field::DistFriend,
    Field::MonsterBacking,
    Field::MonsterAvoidHazards,
    Field::MonsterFriction,
    Field::HelpFriends,
    Field::DogJumping,
    Field::Monkeys,
    Field::Comps,
    Field::ForceOldBsp,
];

fn options() -> &'static [Field]
    ensures { result.now ≡ options }
{
    &OPTIONS
}

/// Writes the options in a line, where the engine has some.
pub fn write_options<W: Sink>(demo: &LaterDemo<'_>, out: &mut W) -> Result<(), IoFault>
    requires { (W.state out.old).failed ≡ false }
    ensures { Writes (W.state out.old) (W.state out.new) (options_line demo.now.layout demo.now.header) result }
{
    if !has_options(demo.layout().engine) {
        return emit(out, b"");
    }
    write_options_line(demo, out)
}

fn write_options_line<W: Sink>(demo: &LaterDemo<'_>, out: &mut W) -> Result<(), IoFault>
    requires { (W.state out.old).failed ≡ false }
    ensures { Writes (W.state out.old) (W.state out.new)
        (codes "options" ++ (joined (map (option_text demo.now.layout demo.now.header) options)
        ++ (comp_text (comp_of demo.now.layout.engine demo.now.header) ++ 10 ∷ []))) result }
{
    let fields = options();
    let mut end = TextLine::new();
    end.prepend_bytes(b"\n");
    prepend_comp(&mut end, demo.comp());
    emit(out, b"options")?;
    write_parts(&OptionFields { demo, fields }, out)?;
    emit(out, end.as_bytes())
}

fn has_options(engine: Engine) -> bool
    ensures { result ≡ has_options engine }
{
    !matches!(engine, Engine::Early | Engine::Doom)
}

// ` comp 0 1`, where there are compatibility options.
fn prepend_comp(line: &mut TextLine, comp: &[u8])
    requires few { length comp.now ≤ 32 }
    requires room { length line.old ≤ 1 }
    ensures { line.new ≡ comp_text comp.now ++ line.old }
{
    if comp.is_empty() {
        return;
    }
    prepend_numbers(line, comp);
    line.prepend_bytes(b" comp");
}

// The options, a part each.
#[derive(Drop)]
struct OptionFields<'d, 'a> {
    demo: &'d LaterDemo<'a>,
    fields: &'static [Field],
}

impl TextParts for OptionFields<'_, '_> {
    ghost use Rattle.std.specs.Prelude.{map};
    ghost use Rattle.demo_listings.specs.Listing.{option_text};

    ghost parts = { λ o. map (option_text o.demo.now.layout o.demo.now.header) o.fields.now };

    fn count(&self) -> usize {
        self.fields.len()
    }

    fn write<W: Sink>(&self, number: usize, out: &mut W) -> Result<(), IoFault> {
        write_option(self.demo, self.fields[number], out)
    }
}

// ` rngseed 3591930973`, where the version has the field.
fn write_option<W: Sink>(demo: &LaterDemo<'_>, field: Field, out: &mut W) -> Result<(), IoFault>
    requires { (W.state out.old).failed ≡ false }
    ensures { Writes (W.state out.old) (W.state out.new) (option_text demo.now.layout demo.now.header field) result }
{
    let Some(number) = demo.number(field) else {
        return emit(out, b"");
    };
    let mut line = TextLine::new();
    prepend_labelled(&mut line, field.name(), u64::from(number));
    line.prepend_bytes(b" ");
    emit(out, line.as_bytes())
}

/// Writes the bytes that belong to nothing in a line, where some isn't 0.
pub fn write_unread<W: Sink>(demo: &LaterDemo<'_>, out: &mut W) -> Result<(), IoFault>
    requires { (W.state out.old).failed ≡ false }
    ensures { Writes (W.state out.old) (W.state out.new) (unread_line demo.now.layout demo.now.header) result }
{
    if !has_left_over(demo) {
        return emit(out, b"");
    }
    write_unread_line(demo, out)
}

fn write_unread_line<W: Sink>(demo: &LaterDemo<'_>, out: &mut W) -> Result<(), IoFault>
    requires { (W.state out.old).failed ≡ false }
    ensures { Writes (W.state out.old) (W.state out.new)
        (codes "unread" ++ (joined (map (byte_text demo.now.layout demo.now.header) (range_with_len 0 (length demo.now.header))) ++ 10 ∷ [])) result }
{
    emit(out, b"unread")?;
    write_parts(&HeaderBytes { demo }, out)?;
    emit(out, b"\n")
}

fn has_left_over(demo: &LaterDemo<'_>) -> bool
    ensures { result ≡ list_any (is_left_over demo.now.layout demo.now.header) (range_with_len 0 (length demo.now.header)) }
{
    (0..demo.header().len()).any(|place| is_left_over(demo, place))
}

// Whether the byte at a place belongs to nothing, and isn't 0.
fn is_left_over(demo: &LaterDemo<'_>, place: usize) -> bool
    ensures { result ≡ is_left_over demo.now.layout demo.now.header place }
{
    matches!(demo.part_at(place), Part::Unread) && demo.byte_at(place) != 0
}

// The bytes of a header, a part each.
#[derive(Drop)]
struct HeaderBytes<'d, 'a> {
    demo: &'d LaterDemo<'a>,
}

impl TextParts for HeaderBytes<'_, '_> {
    ghost use Rattle.std.specs.Prelude.{length, map};
    ghost use Rattle.std.specs.List.{range_with_len};
    ghost use Rattle.demo_listings.specs.Listing.{byte_text};

    ghost parts = { λ b. map (byte_text b.demo.now.layout b.demo.now.header) (range_with_len 0 (length b.demo.now.header)) };

    fn count(&self) -> usize {
        self.demo.header().len()
    }

    fn write<W: Sink>(&self, number: usize, out: &mut W) -> Result<(), IoFault> {
        write_byte(self.demo, number, out)
    }
}

// ` 17:7`, where the byte at a place belongs to nothing and isn't 0.
fn write_byte<W: Sink>(demo: &LaterDemo<'_>, place: usize, out: &mut W) -> Result<(), IoFault>
    requires { (W.state out.old).failed ≡ false }
    ensures { Writes (W.state out.old) (W.state out.new) (byte_text demo.now.layout demo.now.header place) result }
{
    if !is_left_over(demo, place) {
        return emit(out, b"");
    }
    let mut line = TextLine::new();
    line.prepend_small(demo.byte_at(place));
    line.prepend_bytes(b":");
    prepend_labelled(&mut line, b"", place as u64);
    emit(out, line.as_bytes())
}
