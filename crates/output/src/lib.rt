// What the programs write, put into lent buffers: the text of the sizing program, and the reply as bytes with the line beside it.
#![tactic(auto)]

ghost use Rattle.std.specs.Prelude.{◌≡◌, ◌++◌, suc, ◌+◌, ◌*◌, ◌≤◌, ◌<◌, ◌^◌, length};
ghost use Rattle.io.specs.Counts.{IsPrefixLen as Within};
ghost use Rattle.text.specs.Writing.{Puts};
ghost use Rattle.net.specs.Job.{places_by};
ghost use Rattle.net.specs.Promises.{reply_delay};
ghost use Rattle.output.specs.Printed.{answer_with, index_text, place_line, kind_lines, refused_line, printed, replied, told, Holds};
ghost use Rattle.output.specs.Lines.{figures_in, HasFigures, lines_in};

use net::Counts;
use quantity::Delay;
use size::Reply;
use text::Text;

// The programs take no longer input.
const MOST: usize = 65536;

// How many bytes a reply and the line beside it have.
#[derive(Clone, Copy)]
pub struct Lengths {
    pub reply: usize,
    pub line: usize,
}

// What a line tells of a place: its bounds, and lean and wide where they are known.
#[derive(Clone, Copy)]
struct PlaceFigures {
    lower: u8,
    upper: u8,
    lean: Option<u8>,
    wide: Option<u8>,
}

// The places' records in a reply. Only a finished one has lean and wide.
#[derive(Clone, Copy)]
struct Places<'a> {
    reply: &'a [u8; 616],
    counts: Counts,
    finished: bool,
    ghost few: { places_by counts ≤ 76 },
}

// Puts lean or wide at a place and a word behind it: the index where it is known, `-` otherwise.
fn put_index_then(text: &mut Text<'_>, index: Option<u8>, word: &[u8])
    requires { (text.old.at < 2 ^ 40) × (length word.now ≤ 1) }
    ensures puts { Puts text.old (index_text index ++ word.now) text.new }
    ensures upper_bound { text.new.at ≤ text.old.at + 21 }
{
    match index {
        Some(known) => text.put_number(u64::from(known)),
        None => text.put_byte(b'-'),
    }
    text.put_bytes(word);
}

// Puts the line of a place.
fn put_line(text: &mut Text<'_>, kind: &[u8], number: usize, figures: PlaceFigures)
    requires { (text.old.at < 2 ^ 32) × (length kind.now ≤ 9) }
    ensures puts { Puts text.old (place_line kind.now number figures.lower figures.upper figures.lean figures.wide) text.new }
    ensures upper_bound { text.new.at ≤ text.old.at + 114 }
{
    text.put_bytes(kind);
    text.put_number_then(number as u64, b" ");
    text.put_number_then(u64::from(figures.lower), b" ");
    text.put_number_then(u64::from(figures.upper), b" ");
    put_index_then(text, figures.lean, b" ");
    put_index_then(text, figures.wide, b"\n");
}

// The delay in the first record of a reply, the lowest byte first.
fn delay(reply: &[u8; 616]) -> Delay
    ensures { result.0 ≡ reply_delay reply.now }
{
    let [a, b, c, d, e, f, g, h, ..] = *reply;
    Delay(u64::from_le_bytes([a, b, c, d, e, f, g, h]))
}

impl Places<'_> {
    // The figures of place p.
    fn figures(&self, p: usize) -> PlaceFigures
        requires { p < 76 }
        ensures { HasFigures (figures_in self.now.finished self.now.reply.now) p result }
    {
        let record = 8 * (1 + p);
        PlaceFigures {
            lower: self.reply[record],
            upper: self.reply[record + 1],
            lean: self.finished.then_some(self.reply[record + 2]),
            wide: self.finished.then_some(self.reply[record + 3]),
        }
    }

    // Puts the lines of `count` places of one kind, the first of which is place `first`.
    fn put_kind(&self, text: &mut Text<'_>, kind: &[u8], first: usize, count: usize)
        requires { (text.old.at < 2 ^ 31) × (length kind.now ≤ 9) × (first + count ≤ 76) }
        ensures puts { Puts text.old (kind_lines (figures_in self.now.finished self.now.reply.now) kind.now first count) text.new }
        ensures upper_bound { text.new.at ≤ text.old.at + 114 * count }
    {
        for i in 0..count {
            put_line(text, kind, i, self.figures(first + i));
        }
    }

    // Puts the lines of all places.
    fn put_lines(&self, text: &mut Text<'_>)
        requires { text.old.at < 2 ^ 30 }
        ensures puts { Puts text.old (lines_in self.now.finished self.now.reply.now self.now.counts) text.new }
        ensures upper_bound { text.new.at ≤ text.old.at + 8664 }
    {
        let stages = self.counts.stages;
        let segments = self.counts.segments;
        self.put_kind(text, b"stage ", 0, stages);
        self.put_kind(text, b"segment ", stages, segments);
        self.put_kind(text, b"repeater ", stages + segments, self.counts.repeaters);
    }

    // Puts the lines of an answer.
    fn put_answer(&self, text: &mut Text<'_>)
        requires { text.old.at < 2 ^ 29 }
        ensures puts { Puts text.old (answer_with (reply_delay self.now.reply.now) (lines_in self.now.finished self.now.reply.now self.now.counts)) text.new }
        ensures upper_bound { text.new.at ≤ text.old.at + 8700 }
    {
        text.put_bytes(b"answer 0\ndelay ");
        text.put_number_then(delay(self.reply).0, b"\n");
        self.put_lines(text);
    }
}

// Puts the line of a refusal.
fn put_refusal(text: &mut Text<'_>, number: usize)
    requires { text.old.at < 2 ^ 29 }
    ensures puts { Puts text.old (refused_line number) text.new }
    ensures upper_bound { text.new.at ≤ text.old.at + 29 }
{
    text.put_bytes(b"refused ");
    text.put_number_then(number as u64, b"\n");
}

// Puts what the sizing program prints for an input.
fn put_printed(text: &mut Text<'_>, input: &[u8])
    requires { text.old.at < 2 ^ 29 }
    ensures puts { Puts text.old (printed input.now) text.new }
    ensures upper_bound { text.new.at ≤ text.old.at + 8700 }
{
    if input.len() > MOST {
        text.put_bytes(b"too long\n");
        return;
    }
    let mut reply = [0u8; 616];
    match size::size(input, &mut reply) {
        Ok(Reply::Finished(counts)) => {
            let places = Places {
                reply: &reply,
                counts,
                finished: true,
            };
            places.put_answer(text);
        }
        Ok(Reply::BoundsOnly(counts)) => {
            let places = Places {
                reply: &reply,
                counts,
                finished: false,
            };
            put_refusal(text, Reply::BoundsOnly(counts).number());
            places.put_lines(text);
        }
        Err(unwritten) => put_refusal(text, unwritten.number()),
    }
}

// Puts what the sizing program prints for an input, and answers its length.
pub fn print(input: &[u8], out: &mut [u8; 9216]) -> usize
    ensures text { Holds (printed input.now) out.old out.new result }
    ensures within { Within result out.new }
{
    let mut text = Text { out, at: 0 };
    put_printed(&mut text, input);
    text.at
}

// How many bytes the reply of a job has.
fn reply_length(counts: Counts) -> usize
    requires { places_by counts ≤ 76 }
    ensures { result ≡ 8 * suc (places_by counts) }
{
    8 * (1 + (counts.stages + counts.segments + counts.repeaters))
}

// Puts the reply of a job, where there is one, and the line that is told beside it, where it is not answered.
pub fn reply(input: &[u8], out: &mut [u8; 616], line: &mut [u8; 32]) -> Lengths
    ensures reply { Holds (replied input.now) out.old out.new result.reply }
    ensures line { Holds (told input.now) line.old line.new result.line }
    ensures within { Within result.reply out.new × Within result.line line.new }
{
    let mut told = Text { out: line, at: 0 };
    if input.len() > MOST {
        told.put_bytes(b"too long\n");
        return Lengths {
            reply: 0,
            line: told.at,
        };
    }
    match size::size(input, out) {
        Ok(Reply::Finished(counts)) => Lengths {
            reply: reply_length(counts),
            line: 0,
        },
        Ok(Reply::BoundsOnly(counts)) => {
            put_refusal(&mut told, Reply::BoundsOnly(counts).number());
            Lengths {
                reply: reply_length(counts),
                line: told.at,
            }
        }
        Err(unwritten) => {
            put_refusal(&mut told, unwritten.number());
            Lengths {
                reply: 0,
                line: told.at,
            }
        }
    }
}
