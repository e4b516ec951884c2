// Names and reserved words.
ghost use Rattle.std.specs.Prelude.{◌≡◌, ◌∷◌, ◌++◌, ◌<◌, ◌≤◌, ℕ, List, length, map, take, true};
ghost use Rattle.std.specs.List.{list_all};
ghost use Rattle.std.specs.Str.{chars, IsUtf8, encode_utf8_all};
ghost use Rattle.topos_text.specs.Spelling.{word_of, continues_name, entry_of, starts_name};
ghost use Rattle.topos_text.specs.Tokens.{token_of};
ghost use Rattle.topos_tokens.specs.Fronts.{Passed, EndsName, IsFront, is_plain};

use crate::character::{bytes_before, is_continue, next_char};
use topos_text::{Token, Word, Written};

/// Whether the byte is an ASCII character with which a name goes on.
fn is_plain(byte: u8) -> bool
    ensures { result ≡ is_plain byte }
{
    byte.is_ascii_alphanumeric() | (byte == b'_') | (byte == b'\'')
}

/// How many such bytes stand in front.
#[tactic(auto, using(std::proofs::lemmas::List::Folds::list_all_more))]
fn plain_len(bytes: &[u8]) -> usize
    ensures within { result ≤ length bytes.now }
    ensures plain { list_all is_plain (take result bytes.now) ≡ true }
{
    let mut len = 0;
    for byte in bytes {
        if !is_plain(*byte) {
            break;
        }
        len += 1;
    }
    len
}

/// The text behind the ASCII characters with which a name goes on.
fn after_plain(text: &str) -> &str
    ensures passed { Passed continues_name (chars text.now) (chars result.now) }
    ensures utf8 { IsUtf8 result.now }
{
    let len = plain_len(text.as_bytes());
    &text[len..]
}

/// The text behind the characters with which a name goes on.
fn after_name(text: &str) -> &str
    ensures passed { Passed continues_name (chars text.now) (chars result.now) }
    ensures ends { EndsName (chars result.now) }
    ensures utf8 { IsUtf8 result.now }
{
    let mut rest = after_plain(text);
    while let Some((c, behind)) = next_char(rest) {
        if !is_continue(c) {
            return rest;
        }
        rest = behind;
    }
    rest
}

/// The name or the reserved word in front, and the text behind it.
pub fn name_or_word<'a>(text: &'a str, number: u32) -> (Token<'a>, &'a str)
    requires starts { (c : ℕ) × (cs : List ℕ) × (chars text.now ≡ c ∷ cs) × (starts_name c ≡ true) }
    ensures front { IsFront number (chars text.now) (token_of result.0) (chars result.1.now) }
    ensures utf8 { IsUtf8 result.1.now }
{
    let rest = after_name(text);
    let name = bytes_before(text, rest);
    match reserved(name) {
        Some(word) => (Token::Word(word), rest),
        None => (
            Token::Name(Written {
                text: name,
                token: number,
            }),
            rest,
        ),
    }
}

/// The reserved word that the bytes spell.
fn reserved(name: &[u8]) -> Option<Word>
    ensures { result ≡ word_of name.now }
{
    match name {
        [] => None,
        [first, ..] => among(name, words_from(*first)),
    }
}

/// The word beside the spelling that the bytes are.
fn among(name: &[u8], rows: &[(&str, Word)]) -> Option<Word>
    ensures { result ≡ entry_of (map (λ row. (row.0.now, row.1)) rows.now) name.now }
{
    for (spelling, word) in rows {
        if spelling.as_bytes() == name {
            return Some(*word);
        }
    }
    None
}

/// The reserved words that begin with the letter, and their spellings.
fn words_from(letter: u8) -> &'static [(&'static str, Word)]
    ensures { (cs : List ℕ) → word_of (letter ∷ cs) ≡ entry_of (map (λ row. (row.0.now, row.1)) result.now) (letter ∷ cs) }
{
    match letter {
        b'O' => &[("Omega", Word::Omega), ("One", Word::One)],
        b'P' => &[("Pow", Word::Pow)],
        b'a' => &[
            ("arrow", Word::Arrow),
            ("at", Word::At),
            ("along", Word::Along),
            ("as", Word::As),
            ("and", Word::And),
        ],
        b'b' => &[("by", Word::By), ("build", Word::Build)],
        b'c' => &[
            ("compose", Word::Compose),
            ("cover", Word::Cover),
            ("coproduct", Word::Coproduct),
            ("coequalizer", Word::Coequalizer),
            ("classify", Word::Classify),
            ("category", Word::Category),
        ],
        b'd' => &[("dense", Word::Dense), ("derive", Word::Derive)],
        b'e' => &[
            ("equalizer", Word::Equalizer),
            ("empty", Word::Empty),
            ("exists", Word::Exists),
        ],
        b'f' => &[
            ("false", Word::False),
            ("forall", Word::Forall),
            ("fun", Word::Fun),
            ("fst", Word::Fst),
            ("functor", Word::Functor),
        ],
        b'h' => &[("hom", Word::Hom)],
        b'i' => &[("id", Word::Id), ("image", Word::Image), ("in", Word::In)],
        b'l' => &[
            ("let", Word::Let),
            ("local", Word::Local),
            ("lan", Word::Lan),
        ],
        b'm' => &[("map", Word::Map)],
        b'n' => &[("none", Word::None), ("not", Word::Not)],
        b'o' => &[("object", Word::Object), ("of", Word::Of), ("or", Word::Or)],
        b'p' => &[
            ("presheaf", Word::Presheaf),
            ("product", Word::Product),
            ("pullback", Word::Pullback),
            ("pushout", Word::Pushout),
        ],
        b'r' => &[("ran", Word::Ran)],
        b's' => &[
            ("sheafify", Word::Sheafify),
            ("sheaf", Word::Sheaf),
            ("sub", Word::Sub),
            ("show", Word::Show),
            ("snd", Word::Snd),
        ],
        b't' => &[("topology", Word::Topology), ("true", Word::True)],
        b'u' => &[("unique", Word::Unique), ("under", Word::Under)],
        b'v' => &[("valid", Word::Valid), ("version", Word::Version)],
        b'w' => &[("with", Word::With), ("why", Word::Why)],
        _ => &[],
    }
}
