// A pen: it puts one part of the text behind the other.
ghost use Rattle.std.specs.Prelude.{◌≡◌, [], ◌∷◌, ◌*◌, ◌<◌, length};
ghost use Rattle.journal_entry.specs.Entry.{entry_of};
ghost use Rattle.journal_entry.specs.Parse.{read_entries};
ghost use Rattle.journal_entry.specs.Places.{is_clone_kind, entry_at_place};
ghost use Rattle.listing.specs.Text.{hex_bytes, piece, decimal, number_line, entry_line};
ghost use Rattle.listing.specs.Text.{digit as Text·digit, letter as Text·letter};
ghost use Rattle.listing.specs.Listing.{PiecesIn, Reads, lines_of};
ghost use Rattle.listing.specs.Put.{Puts, Room};

use journal_entry::{EntryPlace, Kind};

// A lent text, and the place in it behind what was put.
#[derive(Drop)]
pub(crate) struct Pen<'a> {
    pub(crate) text: &'a mut [u8],
    pub(crate) at: usize,
}

// `I` for an insert, `C` for a clone.
fn letter(kind: Kind) -> u8
    ensures { result ≡ Text·letter (is_clone_kind kind) }
{
    match kind {
        Kind::Insert => b'I',
        Kind::Clone => b'C',
    }
}

// The character of a digit below 16.
fn digit(d: u8) -> u8
    requires { d < 16 }
    ensures { result ≡ Text·digit d }
{
    if d < 10 { 48 + d } else { 87 + d }
}

// Bytes in hexadecimal, two digits each, over the whole of a slice. (By the places in it, so that the compiler makes
// many digits at a time.)
fn hex_over(bytes: &[u8], out: &mut [u8])
    requires { length out.old ≡ 2 * length bytes.now }
    ensures { out.new ≡ hex_bytes bytes.now }
{
    for i in 0..bytes.len() {
        out[2 * i] = digit(bytes[i] / 16);
        out[2 * i + 1] = digit(bytes[i] % 16);
    }
}

impl<'a> Pen<'a> {
    // One byte.
    fn byte(&mut self, b: u8)
        requires { Room self.old (b ∷ []) }
        ensures { Puts self.old (b ∷ []) self.new }
    {
        self.text[self.at] = b;
        self.at += 1;
    }

    // Bytes as they are.
    fn word(&mut self, word: &[u8])
        requires { Room self.old word.now }
        ensures { Puts self.old word.now self.new }
    {
        let end = self.at + word.len();
        self.text[self.at..end].copy_from_slice(word);
        self.at = end;
    }

    // Bytes in hexadecimal, two digits each.
    #[tactic(auto, using(crate::proofs::TextLaws::hex_long))]
    fn hex(&mut self, bytes: &[u8])
        requires { Room self.old (hex_bytes bytes.now) }
        ensures { Puts self.old (hex_bytes bytes.now) self.new }
    {
        let end = self.at + 2 * bytes.len();
        hex_over(bytes, &mut self.text[self.at..end]);
        self.at = end;
    }

    // The same, `-` for none.
    #[tactic(auto, using(crate::proofs::TextLaws::piece_none, crate::proofs::TextLaws::piece_some))]
    fn piece(&mut self, bytes: &[u8])
        requires { Room self.old (piece bytes.now) }
        ensures { Puts self.old (piece bytes.now) self.new }
    {
        if bytes.is_empty() {
            self.byte(b'-');
        } else {
            self.hex(bytes);
        }
    }

    // A number in decimal.
    #[tactic(auto, using(crate::proofs::TextLaws::decimal_printed))]
    fn decimal(&mut self, n: u64)
        requires { Room self.old (decimal n) }
        ensures { Puts self.old (decimal n) self.new }
    {
        self.word(itoa::Buffer::new().format(n).as_bytes());
    }

    // A line of a word and a number.
    #[tactic(auto, using(crate::proofs::Lines::number_long))]
    pub(crate) fn number(&mut self, word: &[u8], n: u64)
        requires { Room self.old (number_line word.now n) }
        ensures { Puts self.old (number_line word.now n) self.new }
    {
        self.word(word);
        self.decimal(n);
        self.byte(b'\n');
    }

    // An entry's line.
    #[tactic(auto, using(crate::proofs::Lines::line_long))]
    fn entry(&mut self, kind: Kind, first: &[u8], second: &[u8])
        requires { Room self.old (entry_line (entry_of (is_clone_kind kind) first.now second.now)) }
        ensures { Puts self.old (entry_line (entry_of (is_clone_kind kind) first.now second.now)) self.new }
    {
        self.byte(letter(kind));
        self.byte(b' ');
        self.piece(first);
        self.byte(b' ');
        self.piece(second);
        self.byte(b'\n');
    }

    // The line of the entry whose pieces lie at a place of the wire forms.
    fn place(&mut self, wires: &[u8], place: EntryPlace)
        requires pieces_in { PiecesIn wires.now place }
        requires room { Room self.old (entry_line (entry_at_place wires.now place)) }
        ensures { Puts self.old (entry_line (entry_at_place wires.now place)) self.new }
    {
        self.entry(
            place.kind,
            &wires[place.first_at..place.first_at + place.first_len],
            &wires[place.second_at..place.second_at + place.second_len],
        );
    }

    // The lines of the first `count` entries, which read.
    pub(crate) fn entries(&mut self, wires: &[u8], count: usize)
        requires reads { Reads (read_entries count wires.now) }
        requires room { Room self.old (lines_of (read_entries count wires.now)) }
        ensures { Puts self.old (lines_of (read_entries count wires.now)) self.new }
    {
        let mut here = 0;
        for _ in 0..count {
            let place = journal_entry::entry_at(&wires, here, wires.len()).unwrap();
            self.place(wires, place);
            here = place.next;
        }
    }
}
