//! The engine for commands over lines of input.
ghost use Rattle.std.specs.Prelude.{◌≡◌, ◌≢◌, ◌⊎◌, ℕ, ◌≤◌, Bool, false, List, [], ◌∷◌, ◌++◌, length};
ghost use Rattle.std.specs.Prelude.{take, IfErr, IfOk, IfSome, OnOk, MatchOption};
ghost use Rattle.std.specs.List.{All};
ghost use Rattle.line_io.specs.AnswersLines.{AnswersFront, AnswersLines, EndsLines, LeavesWhole};
ghost use Rattle.line_io.specs.LineAnswers.{answers_from, last_answer, line_answer};
ghost use Rattle.line_io.specs.Lines.{BeginsLong, BeginsWith, TakesLines, content, last_from};
ghost use Rattle.line_io.specs.Writes.{EndsAnswer, TakesText};
ghost use Rattle.line_io.specs.declared.fault.IoFault.TheVariants.{Memory};

use super::fault::IoFault;
use super::input::{BLOCK, MAX_READ, next_block};
use super::line_part::{KEPT, LinePart};
use super::output::emit;
use super::refusal::LineRefusal;
use le_rec::{Sink, Source};
use memchr::memchr;

/// The most bytes of a line's content, 64.
pub const MAX_CONTENT: usize = 64;

/// A command that answers each line of its input by itself.
pub trait LineCommand {
    /// The functions that its answers follow: from a line's content to the answer with its byte 10.
    ghost Answers: { Self → (List ℕ → List ℕ) → Type 0 };

    /// Whether an answer takes memory.
    ghost takes_memory: { Bool };

    /// Writes the answer to a line with that content.
    fn reply<W: Sink>(&mut self, content: &[u8], out: &mut W) -> Result<(), IoFault>
        requires short { length content.now ≤ MAX_CONTENT }
        requires sound { (W.state out.old).failed ≡ false }
        ensures takes { (answer : List ℕ → List ℕ) → Answers self.old answer
            → TakesText (W.state out.old) (W.state out.new) (answer content.now) result }
        ensures ends { EndsAnswer takes_memory (W.state out.old) (W.state out.new) result }
        ensures same { self.new ≡ self.old };

    /// Answers some of the lines with which `block` begins, each as `reply` does, and tells how many bytes they take,
    /// with the bytes 10 that end them. At 0 it answered none, and the first is one for `reply`.
    fn reply_front<W: Sink>(&mut self, block: &[u8], out: &mut W) -> Result<usize, IoFault>
        requires sound { (W.state out.old).failed ≡ false }
        ensures whole { IfOk result (TakesLines block.now) }
        ensures answered { (answer : List ℕ → List ℕ) → Answers self.old answer
            → AnswersFront answer block.now (W.state out.old) (W.state out.new) result }
        ensures ends { EndsLines takes_memory (W.state out.new) result }
        ensures same { self.new ≡ self.old }
    {
        Ok(0)
    }
}

fn content_of(line: &[u8]) -> &[u8]
    ensures { result.now ≡ content line.now }
{
    if line.last() == Some(&13) {
        &line[..line.len() - 1]
    } else {
        line
    }
}

fn answer_line<C: LineCommand, W: Sink>(
    command: &mut C,
    line: &[u8],
    out: &mut W,
) -> Result<(), IoFault>
    requires { (W.state out.old).failed ≡ false }
    ensures takes { (answer : List ℕ → List ℕ) → C.Answers command.old answer
        → TakesText (W.state out.old) (W.state out.new) (line_answer answer line.now) result }
    ensures ends { EndsAnswer C.takes_memory (W.state out.old) (W.state out.new) result }
    ensures same { command.new ≡ command.old }
{
    let content = content_of(line);
    if content.len() > MAX_CONTENT {
        emit(out, LineRefusal::Form.text())
    } else {
        command.reply(content, out)
    }
}

// Answers the line that `part` begins and `line` ends.
fn answer_ended<C: LineCommand, W: Sink>(
    command: &mut C,
    part: &mut LinePart,
    line: &[u8],
    out: &mut W,
) -> Result<(), IoFault>
    requires { (W.state out.old).failed ≡ false }
    ensures takes { (answer : List ℕ → List ℕ) → C.Answers command.old answer
        → TakesText (W.state out.old) (W.state out.new)
        (line_answer answer (part.old ++ line.now)) result }
    ensures ends { EndsAnswer C.takes_memory (W.state out.old) (W.state out.new) result }
    ensures cleared { part.new ≡ [] }
    ensures same { command.new ≡ command.old }
{
    if part.is_empty() {
        return answer_line(command, line, out);
    }
    part.keep(line);
    let answered = answer_line(command, part.bytes(), out);
    part.clear();
    answered
}

// The bytes before the first byte 10 and those behind it.
fn split_line(bytes: &[u8]) -> Option<(&[u8], &[u8])>
    ensures { MatchOption result (All (λ b. b ≢ 10) bytes.now) (λ p.
        (bytes.now ≡ p.0.now ++ 10 ∷ p.1.now) × All (λ b. b ≢ 10) p.0.now) }
{
    let end = memchr(10, bytes)?;
    Some((&bytes[..end], &bytes[end + 1..]))
}

/// The content of the line with which the bytes begin, and the bytes behind that line. None where no byte 10 ends it,
/// or its content has more than [`MAX_CONTENT`] bytes.
#[inline(always)]
pub fn split_content(bytes: &[u8]) -> Option<(&[u8], &[u8])>
    ensures { MatchOption result (All (λ b. b ≢ 10) bytes.now ⊎ BeginsLong bytes.now) (λ found.
        BeginsWith bytes.now (found.0.now ∷ []) found.1.now) }
{
    let (line, rest) = split_line(bytes)?;
    let content = content_of(line);
    if content.len() > MAX_CONTENT {
        return None;
    }
    Some((content, rest))
}

// Answers the lines that end in `block`; `part` has the beginning of the first of them. Then keeps the part after
// them.
fn answer_block<C: LineCommand, W: Sink>(
    command: &mut C,
    part: &mut LinePart,
    block: &[u8],
    out: &mut W,
) -> Result<(), IoFault>
    requires { (W.state out.old).failed ≡ false }
    ensures takes { (answer : List ℕ → List ℕ) → C.Answers command.old answer
        → TakesText (W.state out.old) (W.state out.new)
        (answers_from answer part.old block.now) result }
    ensures unbroken { (answer : List ℕ → List ℕ) → C.Answers command.old answer
        → IfErr result (λ e. e ≡ Memory
        → LeavesWhole answer part.old block.now (W.state out.old) (W.state out.new)) }
    ensures ends { EndsLines C.takes_memory (W.state out.new) result }
    ensures kept { OnOk result (part.new ≡ take KEPT (last_from part.old block.now)) }
    ensures same { command.new ≡ command.old }
{
    let mut rest = block;
    'lines: while let Some((line, after)) = split_line(rest) {
        answer_ended(command, part, line, out)?;
        let count = command.reply_front(after, out)?;
        rest = &after[count..];
    }
    part.keep(rest);
    Ok(())
}

// Answers the last part of the input, if there is one.
fn answer_last<C: LineCommand, W: Sink>(
    command: &mut C,
    part: &LinePart,
    out: &mut W,
) -> Result<(), IoFault>
    requires { (W.state out.old).failed ≡ false }
    ensures takes { (answer : List ℕ → List ℕ) → C.Answers command.old answer
        → TakesText (W.state out.old) (W.state out.new) (last_answer answer part.now) result }
    ensures ends { EndsAnswer C.takes_memory (W.state out.old) (W.state out.new) result }
{
    if part.is_empty() {
        Ok(())
    } else {
        answer_line(command, part.bytes(), out)
    }
}

/// Reads `input` to its end and writes the answer to each of its lines, as soon as the line has
/// ended. It pulls at most one byte past `limit`.
pub fn answer_lines<C: LineCommand, S: Source, W: Sink>(
    command: &mut C,
    input: &mut S,
    limit: u64,
    out: &mut W,
) -> Result<(), IoFault>
    requires limit { limit ≤ MAX_READ }
    requires input { (S.state input.old).failed ≡ false }
    requires out { (W.state out.old).failed ≡ false }
    ensures { AnswersLines (C.Answers command.old) C.takes_memory limit
        (S.state input.old) (S.state input.new) (W.state out.old) (W.state out.new) result }
{
    let mut block = [0; BLOCK];
    let mut part = LinePart::new();
    let mut read = 0;
    'turns: for _turn in 0..limit + 1 {
        let room = (limit + 1 - read).min(BLOCK as u64) as usize;
        let bytes = next_block(input, &mut block[..room])?;
        if bytes.is_empty() {
            return answer_last(command, &part, out);
        }
        read += bytes.len() as u64;
        let within = bytes.len() - usize::from(read > limit);
        answer_block(command, &mut part, &bytes[..within], out)?;
        if read > limit {
            return Err(IoFault::TooLong);
        }
    }
    unreachable!()
}
