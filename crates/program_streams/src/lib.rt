// Standard input and standard output of the program: what is read, what of it is answered, and what is told where either fails. No
// contract can say which bytes a read and a write move; what is said is which bytes are handed over, whatever was read.
#![tactic(auto)]

ghost use Rattle.std.specs.Prelude.{◌≡◌, ◌+◌, ◌*◌, ◌≤◌, length, take, drop};
ghost use Rattle.lists.specs.Lists.{fill};
ghost use Rattle.program.specs.Program.{printed};
ghost use Rattle.program_streams.specs.Streams.{answer_of, reading_of, Within, Told, Answered};

use std::error::Error;
use std::fmt;
use std::io::{Cursor, Read, Stderr, Stdin, Stdout, Write};

// Standard input could not be read.
#[derive(Clone, Copy, Debug, PartialEq, Eq)]
pub struct Unread;

// Why a run does not end well: its input could not be read, or so many bytes of its output were taken, which are fewer than all.
#[derive(Clone, Copy, Debug, PartialEq, Eq)]
pub enum Unfinished {
    Unread,
    Unwritten(usize),
}

impl From<Unread> for Unfinished {
    ghost use Rattle.program_streams.specs.declared.Unfinished.TheVariants as U;

    ghost from_gives = { λ _ e. e ≡ U.Unread };

    fn from(_: Unread) -> Unfinished {
        Unfinished::Unread
    }
}

impl fmt::Display for Unfinished {
    fn fmt<W: fmt::Write>(&self, f: &mut fmt::Formatter<W>) -> fmt::Result {
        match self {
            Unfinished::Unread => write!(f, "standard input could not be read"),
            Unfinished::Unwritten(_) => write!(f, "standard output could not be written whole"),
        }
    }
}

impl Error for Unfinished {}

// Room for all that any input prints: 16 bytes for each byte of it, and 16 more.
fn output() -> [u8; 1048592]
    ensures { 1048592 ≡ length result }
{
    [0; 1048592]
}

// What a read says by its answer, of the room that it was handed.
fn reading_of(got: std::io::Result<usize>, room: &[u8]) -> Result<usize, Unread>
    ensures { result ≡ reading_of (answer_of got) (length room.now) }
{
    match got {
        Err(_) => Err(Unread),
        Ok(n) => Ok(n.min(room.len())),
    }
}

// One read of standard input, into the room from a place on. The bytes before that place stay.
fn read_more(stdin: &mut Stdin, input: &mut [u8], at: usize) -> Result<usize, Unread>
    requires { at ≤ length input.old }
    ensures within { Within at result input.new }
    ensures input_unchanged { take at input.new ≡ take at input.old }
{
    let got = stdin.read(&mut input[at..]);
    reading_of(got, &input[at..])
}

// Standard input, read until it ends, the room is full or a read fails. How many bytes there are, or that a read failed.
fn read_input(stdin: &mut Stdin, input: &mut [u8]) -> Result<usize, Unread>
    ensures { Within 0 result input.new }
{
    let mut done = 0;
    while done < input.len() {
        let more = read_more(stdin, input, done)?;
        if more == 0 {
            break;
        }
        done += more;
    }
    Ok(done)
}

// One write to standard output, and nothing else writes there: it may be handed only what is left of what the input prints, after
// the bytes taken before. How many bytes it took.
fn write_more(stdout: &mut Stdout, input: &[u8], done: usize, left: &[u8]) -> usize
    requires { left.now ≡ drop done (printed input.now) }
    ensures { result ≤ length left.now }
{
    stdout.write(left).unwrap_or(0)
}

// What the input prints, written to standard output until all is taken or a write fails or takes nothing. How many bytes were
// taken.
fn write_output(stdout: &mut Stdout, input: &[u8], said: &[u8]) -> usize
    requires { said.now ≡ printed input.now }
    ensures { result ≤ length said.now }
{
    let mut done = 0;
    while done < said.len() {
        let more = write_more(stdout, input, done, &said[done..]);
        if more == 0 {
            break;
        }
        done += more;
    }
    done
}

// What the input prints, made in the room and written.
fn say(stdout: &mut Stdout, input: &[u8], out: &mut [u8]) -> Result<usize, Unfinished>
    requires { (length input.now ≤ 65536) × (16 + 16 * length input.now ≤ length out.old) }
    ensures told { Told (printed input.now) result }
    ensures out_after { out.new ≡ fill (printed input.now) out.old }
{
    let k = program::run(input, out);
    let taken = write_output(stdout, input, &out[..k]);
    if taken < k {
        return Err(Unfinished::Unwritten(taken));
    }
    Ok(taken)
}

// The end of a run by what its reading answered: nothing is said of an input that could not be read.
fn answer(
    stdout: &mut Stdout,
    got: Result<usize, Unread>,
    input: &[u8],
    out: &mut [u8],
) -> Result<usize, Unfinished>
    requires { Within 0 got input.now × (length input.now ≤ 65536) × (16 + 16 * length input.now ≤ length out.old) }
    ensures { Answered got input.now out.old result out.new }
{
    let n = got?;
    say(stdout, &input[..n], out)
}

// What went wrong, told on standard error in a line. The line is made first and written at one go, so that what others write there
// cannot stand within it.
fn complain(stderr: &mut Stderr, why: Unfinished) {
    let mut line = Cursor::new([0u8; 64]);
    let _ = writeln!(line, "huepaxochi: {why}");
    let n = line.position().min(64) as usize;
    let _ = stderr.write_all(&line.get_ref()[..n]);
}

// Reads the first 65,536 bytes of standard input, writes what they print to standard output, and tells on standard error where
// either fails.
pub fn check_input(rt: &HostRuntime) {
    let mut input = io::large_buffer();
    let mut out = output();
    let got = read_input(&mut rt.stdin(), &mut input);
    if let Err(why) = answer(&mut rt.stdout(), got, &input, &mut out) {
        complain(&mut rt.stderr(), why);
    }
}
