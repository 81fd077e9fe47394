// One sheet's records from a place in the bytes (document 01, "Records of the program", question 12; document 02, Job 3): the head, the NW records, the GL
// records and, behind a head HL, the LN records. What stands behind the sheet, and what is done with it, is the caller's.

#![tactic(auto)]

ghost use Rattle.std.specs.Prelude.{◌≡◌, ◌≤◌, ◌<◌, ◌^◌};
ghost use Rattle.blocks.specs.State.{most};
ghost use Rattle.sheets.specs.Sheets.{head_at, length_count, nows_at, goals_at, lengths_at, end_at};
ghost use Rattle.sheets.specs.Reads.{no_entries, ReadsSheet};

use records::{Fields, Kind, Reader};
use rows::MOST;

// A head HD, or HL: then the sheet is measured, and lengths are asked for. `measured` is a mark of the file, and no flag beside a value.
#[derive(Clone, Copy, Debug, PartialEq, Eq)]
pub struct Head {
    pub measured: bool,
    pub n: u16,
    pub method: u16,
}

// A sheet of which every record is there, and where it ends. The method is carried and not asked about.
#[derive(Clone, Copy, Debug, PartialEq, Eq)]
pub struct Whole {
    pub n: usize,
    pub method: u16,
    pub measured: bool,
    pub end: usize,
}

// Why no whole sheet stands at a place. The method is carried and not asked about.
#[derive(Clone, Copy, Debug, PartialEq, Eq)]
pub enum Unread {
    // The head is not there.
    Headless,
    // The head says more blocks than the limit.
    Long { method: u16 },
    // A record after the head is not there: so many records stand before it.
    Broken { method: u16, before: u16 },
}

// Lists for the entries of any sheet.
#[derive(Drop)]
pub struct Entries {
    pub initial: [u16; MOST],
    pub goal: [u16; MOST],
    pub lengths: [u16; MOST],
}

impl Entries {
    // Lists of zeros.
    #[tactic(auto, unfolding(crate::specs::Reads::no_entries))]
    pub fn new() -> Self
        ensures { result ≡ no_entries }
    {
        Entries {
            initial: [0; MOST],
            goal: [0; MOST],
            lengths: [0; MOST],
        }
    }
}

// Reads the sheet at a place of the bytes, its entries to the front of the lent lists.
#[tactic(auto, using(crate::proofs::HeadLaws::head_room))]
pub fn read_sheet(bytes: &[u8], at: usize, entries: &mut Entries) -> Result<Whole, Unread>
    ensures { ReadsSheet bytes.now at entries.old result entries.new }
{
    let Head {
        measured,
        n,
        method,
    } = read_head(bytes, at).ok_or(Unread::Headless)?;
    let n = usize::from(n);
    if MOST < n {
        return Err(Unread::Long { method });
    }
    let nows = Reader::new(bytes, nows_at(at)).entries(Kind::Nw, &mut entries.initial[..n]);
    if nows < n {
        return Err(Unread::Broken {
            method,
            before: (1 + nows) as u16,
        });
    }
    let goals = Reader::new(bytes, goals_at(at, n)).entries(Kind::Gl, &mut entries.goal[..n]);
    if goals < n {
        return Err(Unread::Broken {
            method,
            before: (1 + n + goals) as u16,
        });
    }
    let k = length_count(measured, n);
    let measures = Reader::new(bytes, lengths_at(at, n)).entries(
        Kind::Ln,
        &mut entries.lengths[..k],
    );
    if measures < k {
        return Err(Unread::Broken {
            method,
            before: (1 + n + n + measures) as u16,
        });
    }
    Ok(Whole {
        n,
        method,
        measured,
        end: end_at(at, n, k),
    })
}

// The head at a place.
pub fn read_head(bytes: &[u8], at: usize) -> Option<Head>
    ensures { result ≡ head_at bytes.now at }
{
    let reader = Reader::new(bytes, at);
    if let Some(Fields { first, second }) = reader.record(Kind::Hd) {
        return Some(Head {
            measured: false,
            n: first,
            method: second,
        });
    }
    let Fields { first, second } = reader.record(Kind::Hl)?;
    Some(Head {
        measured: true,
        n: first,
        method: second,
    })
}

// How many LN records a head asks for. The second part of the contract follows from the first: with it the sums of a caller need no proof.
pub fn length_count(measured: bool, n: usize) -> usize
    ensures { (result ≡ length_count measured n) × (result ≤ n) }
{
    if measured { n } else { 0 }
}

// Where the NW records begin, behind a head at a place.
#[tactic(auto, unfolding(records::specs::Marks::mark_of, records::specs::Marks::marks))]
fn nows_at(at: usize) -> usize
    requires { at < 2 ^ 63 }
    ensures { result ≡ nows_at at }
{
    at + Kind::Hd.size()
}

// Where the GL records begin.
#[tactic(auto, unfolding(records::specs::Marks::mark_of, records::specs::Marks::marks))]
fn goals_at(at: usize, n: usize) -> usize
    requires at_bound { at < 2 ^ 63 }
    requires n_le_most { n ≤ most }
    ensures { result ≡ goals_at at n }
{
    nows_at(at) + n * Kind::Nw.size()
}

// Where the LN records begin.
#[tactic(auto, unfolding(records::specs::Marks::mark_of, records::specs::Marks::marks))]
fn lengths_at(at: usize, n: usize) -> usize
    requires at_bound { at < 2 ^ 63 }
    requires n_le_most { n ≤ most }
    ensures { result ≡ lengths_at at n }
{
    goals_at(at, n) + n * Kind::Gl.size()
}

// Where the sheet ends, behind k LN records.
#[tactic(auto, unfolding(records::specs::Marks::mark_of, records::specs::Marks::marks))]
fn end_at(at: usize, n: usize, k: usize) -> usize
    requires at_bound { at < 2 ^ 63 }
    requires n_le_most { (n ≤ most) × (k ≤ most) }
    ensures { result ≡ end_at at n k }
{
    lengths_at(at, n) + k * Kind::Ln.size()
}
