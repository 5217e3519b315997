//! A word of 36 bits, seen by contracts as its cdr code and its content.
//!
//! Bits 35 and 34 are the cdr code. Bits 33 and 32 are the major tag: 1 for a fixnum, whose number
//! is bits 31 to 0 in two's complement, and 0 for all others, which have a minor tag in bits 31 to
//! 28 and an address or a payload in bits 27 to 0.
ghost use Rattle.std.specs.Prelude.{◌≡◌, ◌%◌, ◌<◌, ◌≤◌, ◌^◌, ◌↔◌, Some, None, IfSome, IsNone};
ghost use Rattle.std.specs.Bool.{OnTrue, OnFalse};
ghost use Rattle.store_word.specs.Words.{cdr_bits, tag_of, address_of, number_of, header_of, bits_of, parts_from, word_from, IsWord, NoWord, IsContent};

use std::marker::Model;

// The tags with an address, a bit for each: LIST, STRUCT, HEADER-FORWARD and GC-FORWARD. A tag is read here as the number of its
// major and minor tag together, bits 33 to 28 of a word.
const ADDRESS_TAGS: u64 = 0b110_1100;

/// How to find the cdr of the cons that begins at a word.
#[derive(Clone, Copy, PartialEq, Eq, Debug)]
pub enum CdrCode {
    /// In a cell: the cdr is the list that begins at the next word. Words that are no cell or pair
    /// have this code, too.
    Next,

    /// In a cell: the cdr is NIL.
    Nil,

    /// In the first word of a pair: the cdr is the next word.
    Normal,

    /// In the second word of a pair of charge 2. That of a pair of charge 3 has the code `Next`.
    Second,
}

/// What kind of word it is: the content without its number, address or header.
#[derive(Clone, Copy, PartialEq, Eq, Debug)]
pub enum Tag {
    Null,
    Nil,
    List,
    Struct,
    Header,
    HeaderForward,
    GcForward,
    Fixnum,
}

/// The content of a word: all but its cdr code. Addresses count words from 0, and are below 2^28.
#[derive(Clone, Copy, PartialEq, Eq, Debug)]
pub enum Content {
    /// Nothing: the word of an empty place.
    Null,

    /// NIL, the empty list.
    Nil,

    /// A reference to a cons, by its address.
    List(u32),

    /// A reference to a block, by the address of its header.
    Struct(u32),

    /// The first word of a block: its code, and its number of fields, at most 2,047.
    Header { code: u16, length: u16 },

    /// The forward that a cell or a header leaves when its object is relocated in its class: the
    /// address of the pair or the larger block.
    HeaderForward(u32),

    /// What a transported object leaves: the address of its copy.
    GcForward(u32),

    /// A number.
    Fixnum(i32),
}

/// A word of 36 bits, kept in 64.
///
/// Only words of the format exist: `bits` ensures that every word's number is one that `read_bits`
/// accepts. So nothing else is ever written to a memory.
#[derive(Clone, Copy)]
pub struct Word {
    bits: u64,
}

impl Model for Word {
    ghost use Rattle.store_word.specs.Words.{Parts, parts_from, bits_of, IsWord};
    ghost use Rattle.store_word.specs.WordLaws.{bits_of-parts_from};

    ghost Value = { Parts };

    ghost view = { λ a. parts_from a.bits };

    ghost invariant = { λ a. IsWord a.bits };

    ghost inverse = { λ p. record { bits = bits_of p } };

    ghost inverse_ok = { λ a h i. record { bits = bits_of-parts_from a.bits h i } };
}

impl Word {
    /// The word of an empty place: its number is 0. Like each word made by a call below, it has the
    /// cdr code `Next`.
    pub fn null() -> Word
        ensures { result ≡ record { cdr = CdrCode.Next; content = Content.Null } }
    {
        Word { bits: 0 }
    }

    /// NIL, the empty list.
    pub fn nil() -> Word
        ensures { result ≡ record { cdr = CdrCode.Next; content = Content.Nil } }
    {
        Word { bits: 1 << 28 }
    }

    /// A number.
    pub fn fixnum(number: i32) -> Word
        ensures { result ≡ record { cdr = CdrCode.Next; content = Content.Fixnum number } }
    {
        Word {
            bits: (1 << 32) + number.cast_unsigned() as u64,
        }
    }

    /// A reference to the cons at this address, which is below 2^28.
    pub fn list_at(at: u32) -> Word
        requires { at < 2 ^ 28 }
        ensures { result ≡ record { cdr = CdrCode.Next; content = Content.List at } }
    {
        Word {
            bits: (2 << 28) + at as u64,
        }
    }

    /// A reference to the block whose header is at this address, which is below 2^28.
    pub fn struct_at(at: u32) -> Word
        requires { at < 2 ^ 28 }
        ensures { result ≡ record { cdr = CdrCode.Next; content = Content.Struct at } }
    {
        Word {
            bits: (3 << 28) + at as u64,
        }
    }

    /// The first word of a block of this code and this number of fields, at most 2,047.
    pub fn header(code: u16, length: u16) -> Word
        requires { length ≤ 2047 }
        ensures { result ≡ record { cdr = CdrCode.Next; content = Content.Header code length } }
    {
        Word {
            bits: (4 << 28) + code as u64 * 2048 + length as u64,
        }
    }

    /// What a cell that became a pair, or a block that grew, leaves: the address of the pair or of
    /// the larger block, which is below 2^28.
    pub fn header_forward(at: u32) -> Word
        requires { at < 2 ^ 28 }
        ensures { result ≡ record { cdr = CdrCode.Next; content = Content.HeaderForward at } }
    {
        Word {
            bits: (5 << 28) + at as u64,
        }
    }

    /// What a transported object leaves: the address of its copy, which is below 2^28.
    pub fn gc_forward(at: u32) -> Word
        requires { at < 2 ^ 28 }
        ensures { result ≡ record { cdr = CdrCode.Next; content = Content.GcForward at } }
    {
        Word {
            bits: (6 << 28) + at as u64,
        }
    }

    /// The same word with another cdr code.
    pub fn with_cdr(self, code: CdrCode) -> Word
        ensures { result ≡ record self { cdr = code } }
    {
        Word {
            bits: (front_bits(code) << 34) + self.bits % (1 << 34),
        }
    }

    /// The cdr code.
    pub fn cdr_code(self) -> CdrCode
        ensures { result ≡ self.cdr }
    {
        match self.bits >> 34 {
            0 => CdrCode::Next,
            1 => CdrCode::Nil,
            2 => CdrCode::Normal,
            _ => CdrCode::Second,
        }
    }

    /// All but the cdr code, within the ranges of a word.
    pub fn content(self) -> Content
        ensures value { result ≡ self.content }
        ensures fits { IsContent result }
    {
        let low = (self.bits % (1 << 28)) as u32;
        if self.bits >> 32 & 3 == 1 {
            return Content::Fixnum(((self.bits % (1 << 32)) as u32).cast_signed());
        }
        match self.bits >> 28 & 15 {
            0 => Content::Null,
            1 => Content::Nil,
            2 => Content::List(low),
            3 => Content::Struct(low),
            4 => Content::Header {
                code: (low / 2048) as u16,
                length: (low % 2048) as u16,
            },
            5 => Content::HeaderForward(low),
            _ => Content::GcForward(low),
        }
    }

    /// What kind of word it is.
    pub fn tag(self) -> Tag
        ensures { result ≡ tag_of self.content }
    {
        match self.content() {
            Content::Null => Tag::Null,
            Content::Nil => Tag::Nil,
            Content::List(_) => Tag::List,
            Content::Struct(_) => Tag::Struct,
            Content::Header { code: _, length: _ } => Tag::Header,
            Content::HeaderForward(_) => Tag::HeaderForward,
            Content::GcForward(_) => Tag::GcForward,
            Content::Fixnum(_) => Tag::Fixnum,
        }
    }

    /// The address in the word. It is None if and only if the tag isn't LIST, STRUCT,
    /// HEADER-FORWARD or GC-FORWARD.
    pub fn address(self) -> Option<u32>
        ensures value { result ≡ address_of self.content }
        ensures in_range { IfSome result (λ at. at < 2 ^ 28) }
    {
        if has_address(self.bits) {
            Some((self.bits % (1 << 28)) as u32)
        } else {
            None
        }
    }

    /// The number in the word. It is None if and only if the tag isn't FIXNUM.
    pub fn number(self) -> Option<i32>
        ensures { result ≡ number_of self.content }
    {
        match self.content() {
            Content::Fixnum(number) => Some(number),
            _ => None,
        }
    }

    /// The code and the number of fields in a header. It is None if and only if the tag isn't
    /// HEADER.
    pub fn header_parts(self) -> Option<(u16, u16)>
        ensures value { result ≡ header_of self.content }
        ensures in_range { IfSome result (λ parts. parts.1 ≤ 2047) }
    {
        match self.content() {
            Content::Header { code, length } => Some((code, length)),
            _ => None,
        }
    }

    /// The number that it is kept as, which is always one of the format.
    pub fn bits(self) -> u64
        ensures value { result ≡ bits_of self }
        ensures sound { IsWord result }
        ensures read { word_from result ≡ Some self }
    {
        self.bits
    }

    /// The word that is kept as this number. It is None if and only if the number is 2^36 or more;
    /// the major tag is 2 or 3; the major tag is 0 and the minor tag is 7 or more; the tag is NULL
    /// or NIL and the payload isn't 0; or the tag is HEADER and the payload is 2^27 or more.
    pub fn read_bits(bits: u64) -> Option<Word>
        ensures value { result ≡ word_from bits }
        ensures none { IsNone result ↔ NoWord bits }
    {
        if is_word(bits) {
            Some(Word { bits })
        } else {
            None
        }
    }
}

// The two bits of a cdr code.
fn front_bits(code: CdrCode) -> u64
    ensures value { result ≡ cdr_bits code }
    ensures at_most { result < 4 }
{
    match code {
        CdrCode::Next => 0,
        CdrCode::Nil => 1,
        CdrCode::Normal => 2,
        CdrCode::Second => 3,
    }
}

// Whether the word that is kept as this number has an address.
fn has_address(bits: u64) -> bool
    requires { IsWord bits }
    ensures on_true { OnTrue result (address_of (parts_from bits).content ≡ Some (bits % 2 ^ 28)) }
    ensures on_false { OnFalse result (address_of (parts_from bits).content ≡ None) }
{
    (ADDRESS_TAGS >> (bits >> 28) % 64) % 2 == 1
}

// Whether a number is kept for a word.
fn is_word(bits: u64) -> bool
    ensures on_true { OnTrue result (IsWord bits) }
    ensures on_false { OnFalse result (NoWord bits) }
{
    let low = bits % (1 << 28);
    if bits >> 36 > 0 || bits >> 32 & 3 > 1 {
        return false;
    }
    if bits >> 32 & 3 == 1 {
        return true;
    }
    match bits >> 28 & 15 {
        0 => low == 0,
        1 => low == 0,
        4 => low < 1 << 27,
        minor => minor < 7,
    }
}
