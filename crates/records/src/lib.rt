// Records of the program (document 01, "Records of the program"; document 02, Job 3): read and written by one table of marks.

#![tactic(auto)]

ghost use Rattle.std.specs.Prelude.{◌≡◌, [], ◌∷◌, ◌+◌, ◌<◌, ◌≤◌, length};
ghost use Rattle.std.proofs.lemmas.List.Edits.{sets};
ghost use Rattle.records.specs.Marks.{row, mark_of, size};
ghost use Rattle.records.specs.Records.{field_at, has_record, record_at, ReadEntries, field_bytes, PutRecord};

// The kinds of records, by their marks, in the order of the table.
#[derive(Clone, Copy, Debug, PartialEq, Eq)]
pub enum Kind {
    Hd,
    Nw,
    Gl,
    Pl,
    Lf,
    No,
    Hl,
    Ln,
}

impl Kind {
    // How many bytes a record of the kind has.
    #[tactic(auto, using(crate::proofs::MarkLaws::fields_small))]
    pub fn size(self) -> usize
        ensures { result ≡ size self }
    {
        2 + 2 * self.mark().fields
    }

    // The kind's row in the table.
    #[tactic(auto, unfolding(crate::specs::Marks::mark_of, crate::specs::Marks::marks))]
    fn mark(self) -> Mark
        ensures { result ≡ mark_of self }
    {
        MARKS[self.row()]
    }

    // Where the kind stands in the table.
    fn row(self) -> usize
        ensures { result ≡ row self }
    {
        self as usize
    }
}

// A mark, high byte first, and how many fields follow it.
#[derive(Clone, Copy, Debug, PartialEq, Eq)]
pub struct Mark {
    pub high: u8,
    pub low: u8,
    pub fields: usize,
}

// Document 01's constant table and the marks of document 02, Job 3, proved to be that of specs/Marks.antt. Reader and writer take marks and numbers of
// fields from it alone.
const MARKS: [Mark; 8] = [
    Mark {
        high: b'H',
        low: b'D',
        fields: 2,
    },
    Mark {
        high: b'N',
        low: b'W',
        fields: 1,
    },
    Mark {
        high: b'G',
        low: b'L',
        fields: 1,
    },
    Mark {
        high: b'P',
        low: b'L',
        fields: 2,
    },
    Mark {
        high: b'L',
        low: b'F',
        fields: 2,
    },
    Mark {
        high: b'N',
        low: b'O',
        fields: 2,
    },
    Mark {
        high: b'H',
        low: b'L',
        fields: 2,
    },
    Mark {
        high: b'L',
        low: b'N',
        fields: 1,
    },
];

// The fields of a record. A kind of one field has 0 for the second, as in the definitions; an Option would be no plainer, since nobody asks it of such a kind.
#[derive(Clone, Copy, Debug, PartialEq, Eq)]
pub struct Fields {
    pub first: u16,
    pub second: u16,
}

// The bytes of a file and a place in them: the thin reader that document 01 names, over functions on a slice and a number.
#[derive(Clone, Copy, Debug, PartialEq, Eq)]
pub struct Reader<'a> {
    pub bytes: &'a [u8],
    pub at: usize,
}

impl<'a> Reader<'a> {
    // A reader of the bytes from a place on.
    pub fn new(bytes: &'a [u8], at: usize) -> Self
        ensures { (result.bytes ≡ bytes.entry) × (result.at ≡ at) }
    {
        Reader { bytes, at }
    }

    // The record of a kind at the reader's place, if one stands there.
    pub fn record(self, kind: Kind) -> Option<Fields>
        ensures { result ≡ record_at kind self.entry.bytes.now self.entry.at }
    {
        record_at(kind, self.bytes, self.at)
    }

    // The first fields of the records of a kind that stand one after another from the reader's place on, as many as the lent list takes, into that list.
    // The answer is how many there are before the first place without one.
    pub fn entries(self, kind: Kind, out: &mut [u16]) -> usize
        ensures { ReadEntries kind self.entry.bytes.now self.entry.at out.old result out.new }
    {
        entries_at(kind, self.bytes, self.at, out)
    }
}

// Writes a record at a place, and answers the place after it. A kind of one field takes the first.
pub fn put_record(kind: Kind, first: u16, second: u16, bytes: &mut [u8], at: usize) -> usize
    requires { at + size kind ≤ length bytes.old }
    ensures { PutRecord kind first second at bytes.old result bytes.new }
{
    let mark = kind.mark();
    bytes[at] = mark.high;
    bytes[at + 1] = mark.low;
    put_field(bytes, at + 2, first);
    if mark.fields == 2 {
        put_field(bytes, at + 4, second);
    }
    at + kind.size()
}

// The record of a kind at a place, if one stands there.
fn record_at(kind: Kind, bytes: &[u8], at: usize) -> Option<Fields>
    ensures { result ≡ record_at kind bytes.now at }
{
    if !has_record(kind, bytes, at) {
        return None;
    }
    let first = field_at(bytes, at + 2);
    let second = if kind.mark().fields == 2 {
        field_at(bytes, at + 4)
    } else {
        0
    };
    Some(Fields { first, second })
}

// The entries of records of a kind from a place on, into the lent list; the answer is how many there are.
fn entries_at(kind: Kind, bytes: &[u8], at: usize, out: &mut [u16]) -> usize
    ensures { ReadEntries kind bytes.now at out.old result out.new }
{
    let step = kind.size();
    let mut place = at;
    for (i, entry) in out.iter_mut().enumerate() {
        let Some(fields) = record_at(kind, bytes, place) else {
            return i;
        };
        *entry = fields.first;
        place += step;
    }
    out.len()
}

// Whether a record of a kind stands at a place: all its bytes are there, with its own mark.
fn has_record(kind: Kind, bytes: &[u8], at: usize) -> bool
    ensures { result ≡ has_record kind bytes.now at }
{
    if bytes.len() < at || bytes.len() - at < kind.size() {
        return false;
    }
    let mark = kind.mark();
    bytes[at] == mark.high && bytes[at + 1] == mark.low
}

// A field: two bytes, high byte first.
fn field_at(bytes: &[u8], at: usize) -> u16
    requires { at + 1 < length bytes.now }
    ensures { result ≡ field_at bytes.now at }
{
    u16::from_be_bytes([bytes[at], bytes[at + 1]])
}

// Writes a field, high byte first.
fn put_field(bytes: &mut [u8], at: usize, value: u16)
    requires { at + 1 < length bytes.old }
    ensures { bytes.new ≡ sets bytes.old at (field_bytes (value ∷ [])) }
{
    bytes[at..at + 2].copy_from_slice(&value.to_be_bytes());
}
