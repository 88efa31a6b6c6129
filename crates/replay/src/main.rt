// Plays every record of the oracle's answers through its entry, and prints how many there are and how many differ.
#![tactic(auto)]

mod counted;

ghost use Rattle.std.specs.Prelude.{◌≡◌, ◌≤◌, length, IfOk};

use counted::Counts;
use recorded::entry::Form;
use recorded::layout;
use std::fmt::Write;
use std::fs::File;
use std::io::Read;
use std::{fmt, io};
use telling::stdout::Stdout;

// It says no more of its array than the length, so that no proof unfolds its zeros.
fn zeros<const N: usize>() -> [u8; N]
    ensures { N ≡ length result }
{
    [0; N]
}

// Fills buf from its start as far as the file goes, and answers how many bytes came. A read that fails ends it, too.
fn read_full(file: &mut File, buf: &mut [u8]) -> usize
    ensures { result ≤ length buf.new }
{
    let mut done = 0;
    // until nothing comes: it counts no index
    while done < buf.len() {
        let n = file.read(&mut buf[done..]).unwrap_or(0);
        if n == 0 {
            break;
        }
        done += n;
    }
    done
}

// Reads the next record to the start of rec. None where it isn't whole or has no room.
fn next<'a>(file: &mut File, rec: &'a mut [u8]) -> Option<&'a [u8]>
    requires { 8 ≤ length rec.old }
{
    if read_full(file, &mut rec[..8]) < 8 {
        return None;
    }
    let e = layout::word(rec, 0) as usize;
    if e < 8 || e > rec.len() {
        return None;
    }
    if read_full(file, &mut rec[8..e]) < e - 8 {
        return None;
    }
    Some(&rec[..e])
}

// How many records the file says that it has, where it is such a file.
fn begin(file: &mut File) -> Option<u64> {
    let mut head = [0u8; 16];
    let got = read_full(file, &mut head);
    if got == 16 && layout::word(&head, 0) == 0x3143_524f_5554_4c41 {
        Some(layout::word(&head, 1))
    } else {
        None
    }
}

fn skipped(out: &mut Stdout, k: u64, counts: &mut Counts) -> fmt::Result {
    counts.skip();
    writeln!(out, "record {k} is skipped")
}

// Plays record k with its matrix.
fn play_with(out: &mut Stdout, k: u64, b: &[u8], m: &[u8], counts: &mut Counts) -> fmt::Result {
    let differences = played::calls::tried(k, b, m);
    counts.count(b, &differences);
    write!(out, "{differences}")
}

// Plays record k; m is room for its matrix.
fn play(out: &mut Stdout, k: u64, b: &[u8], m: &mut [u8], counts: &mut Counts) -> fmt::Result
    requires { 2097152 ≤ length m.old }
{
    let s = layout::part(b, 20, layout::stored(b));
    match layout::form(b) {
        Form::Floats => play_with(out, k, b, s, counts),
        Form::SignedBytes if s.len() > 262144 => skipped(out, k, counts),
        Form::SignedBytes => {
            layout::expand(m, s, s.len());
            play_with(out, k, b, &m[..8 * s.len()], counts)
        }
    }
}

// How many of n records could be read.
fn each(
    file: &mut File,
    out: &mut Stdout,
    n: u64,
    rec: &mut [u8],
    m: &mut [u8],
    counts: &mut Counts,
) -> Result<u64, fmt::Error>
    requires { (8 ≤ length rec.old) × (2097152 ≤ length m.old) }
    ensures { IfOk result (λ k. k ≤ n) }
{
    for k in 0..n {
        let Some(b) = next(file, rec) else {
            return Ok(k);
        };
        if played::compared::whole(b) {
            play(out, k, b, m, counts)?;
        } else {
            skipped(out, k, counts)?;
        }
    }
    Ok(n)
}

fn replayed(file: &mut File, out: &mut Stdout) -> fmt::Result {
    let mut counts = Counts::default();
    // room for a record, of which the largest has 279,288 bytes, and for the matrix of 512 samples
    let mut rec = zeros::<524288>();
    let mut m = zeros::<2097152>();
    let n = begin(file).unwrap_or(0);
    let read = each(file, out, n, &mut rec, &mut m, &mut counts)?;
    let left = read_full(file, &mut [0u8; 1]);
    counts.unread(n - read, left as u64);
    write!(out, "{counts}")
}

fn main(rt: HostRuntime) -> io::Result<()> {
    let mut file = File::open(&rt, "answers.bin")?;
    // no write to Stdout is an error
    let _ = replayed(&mut file, &mut Stdout);
    Ok(())
}
