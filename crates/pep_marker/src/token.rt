// The tokens of a marker (PEP 508, "Grammar").

ghost use Rattle.std.specs.Prelude.{◌≡◌, ◌≤◌, IfOk, IsTrue, List, None, drop, false, length};
ghost use Rattle.std.specs.Prelude.{map, option_map, IfSome, MatchOption};
ghost use Rattle.std.specs.List.{prefix_len};
ghost use Rattle.std.specs.Str.{IsCharBoundary};
ghost use Rattle.pep_marker.specs.Marker as syntax;
ghost use Rattle.pep_marker.specs.Marker.{BeginsWith, HasTokens, is_quote, is_word_byte};
ghost use Rattle.texts.specs.Runs.{without_leading_blanks};
ghost use Rattle.pep_marker.specs.Way.Token.{IsTokenAt, found_of, token_of};
ghost use Rattle.pep_marker.specs.Way.TokenReading.{in_behind, is_quoted_byte, next_token};
ghost use Rattle.pep_marker.specs.Way.TokenReading.{operator_token, text_token, word_of, word_token};

use crate::environment::Variable;
use crate::forms::form_of;
use crate::marker::Operator;
use specifiers::Op;
use std::alloc::{AllocError, Global};
use texts::blank_run;

// One side of a comparison: a variable, or what stands between two quotes.
#[derive(Clone, Copy)]
pub(crate) enum Side<'a> {
    Variable(Variable),
    Text(&'a str),
}

#[derive(Clone, Copy)]
pub(crate) enum Token<'a> {
    Open,
    Close,
    And,
    Or,
    Operand(Side<'a>),
    Operator(Operator),
}

// The tokens in front of a text: all of it where `whole`, else up to the first place where no token
// stands.
#[derive(Drop)]
pub(crate) struct Tokens<'a> {
    pub(crate) items: Vec<Token<'a>>,
    pub(crate) whole: bool,
}

// Whether a word may hold the byte.
fn is_word_byte(b: u8) -> bool
    ensures { result ≡ is_word_byte b }
{
    form_of(b) > b',' && b != b'-'
}

// Whether the byte begins a text in quotes.
fn is_quote(b: u8) -> bool
    ensures { result ≡ is_quote b }
{
    b == b'"' || b == b'\''
}

// Whether the byte may stand between two of these quotes.
fn is_quoted_byte(quote: u8, b: u8) -> bool
    ensures { result ≡ is_quoted_byte quote b }
{
    !(b == quote || b == b'\n' || b == b'\r')
}

// How many bytes of a word stand in front.
fn word_run(text: &[u8]) -> usize
    ensures count { result ≡ prefix_len is_word_byte text.now }
    ensures within { result ≤ length text.now }
{
    text.iter().take_while(|b| is_word_byte(**b)).count()
}

// How many bytes that may stand between two of these quotes are in front.
fn quoted_run(quote: u8, text: &[u8]) -> usize
    ensures count { result ≡ prefix_len (is_quoted_byte quote) text.now }
    ensures within { result ≤ length text.now }
{
    text.iter()
        .take_while(|b| is_quoted_byte(quote, **b))
        .count()
}

// What a word is, `not` apart.
#[tactic(auto, unfolding(crate::specs::Way::TokenReading::word_of))]
fn word_lexeme<'a>(word: &[u8]) -> Option<Token<'a>>
    ensures { option_map token_of result ≡ word_of word.now }
{
    if word == "and".as_bytes() {
        return Some(Token::And);
    }
    if word == "or".as_bytes() {
        return Some(Token::Or);
    }
    if word == "in".as_bytes() {
        return Some(Token::Operator(Operator::In));
    }
    let variable = Variable::of_name(word)?;
    Some(Token::Operand(Side::Variable(variable)))
}

// How many bytes of white space and `in` stand behind a `not`.
#[tactic(auto, unfolding(crate::specs::Way::TokenReading::in_behind))]
fn in_behind(text: &[u8]) -> Option<usize>
    ensures count { result ≡ in_behind text.now }
    ensures within { IfSome result (λ n. n ≤ length text.now) }
{
    let blanks = blank_run(text);
    let (_, rest) = text.split_at(blanks);
    let (word, _) = rest.split_at(word_run(rest));
    if blanks > 0 && word == "in".as_bytes() {
        Some(blanks + 2)
    } else {
        None
    }
}

// The token of a word, and how many bytes it is written in.
#[tactic(auto, unfolding(crate::specs::Way::TokenReading::word_token))]
fn word_token<'a>(text: &[u8]) -> Option<(Token<'a>, usize)>
    ensures { found_of result ≡ word_token text.now }
{
    let (word, rest) = text.split_at(word_run(text));
    if word == "not".as_bytes() {
        let count = in_behind(rest)?;
        return Some((Token::Operator(Operator::NotIn), count + 3));
    }
    let token = word_lexeme(word)?;
    Some((token, word.len()))
}

// The token of a text in quotes, from the byte behind the first one on.
#[tactic(auto, unfolding(crate::specs::Way::TokenReading::text_token))]
fn text_token(quote: u8, text: &str) -> Option<(Token<'_>, usize)>
    requires { IsTrue (is_quote quote) }
    ensures { found_of result ≡ text_token quote text.now }
{
    let count = quoted_run(quote, text.as_bytes());
    let (_, rest) = text.as_bytes().split_at(count);
    match rest {
        [first, ..] if *first == quote => {
            let (inner, _) = text.split_at(count);
            Some((Token::Operand(Side::Text(inner)), count + 2))
        }
        _ => None,
    }
}

// The operator in front of a text, and how many bytes it is written in.
#[tactic(auto, unfolding(crate::specs::Way::TokenReading::operator_token))]
fn operator_token<'a>(text: &[u8]) -> Option<(Token<'a>, usize)>
    ensures { found_of result ≡ operator_token text.now }
{
    let operator = Op::at_front(text)?;
    let count = operator.text().len();
    Some((Token::Operator(Operator::Version(operator)), count))
}

// The token in front of a text that does not begin with white space, and how many bytes it is
// written in.
#[tactic(auto, unfolding(crate::specs::Way::TokenReading::next_token))]
fn next_token(text: &str) -> Option<(Token<'_>, usize)>
    ensures { found_of result ≡ next_token text.now }
{
    let [first, ..] = text.as_bytes() else {
        return None;
    };
    if is_word_byte(*first) {
        word_token(text.as_bytes())
    } else if is_quote(*first) {
        text_token(*first, &text[1..])
    } else if *first == b'(' {
        Some((Token::Open, 1))
    } else if *first == b')' {
        Some((Token::Close, 1))
    } else {
        operator_token(text.as_bytes())
    }
}

// The token at a place where no white space stands, and the place behind it.
fn token_at(text: &str, start: usize) -> Option<(Token<'_>, usize)>
    requires { IsCharBoundary text.now start }
    ensures { MatchOption result (next_token (drop start text.now) ≡ None)
        (λ found. IsTokenAt text.now start (token_of found.0) found.1) }
{
    let (_, rest) = text.split_at(start);
    let (token, count) = next_token(rest)?;
    Some((token, start + count))
}

// The place behind the white space at a place.
fn past_blanks(text: &str, place: usize) -> usize
    requires { IsCharBoundary text.now place }
    ensures rest { drop result text.now ≡ without_leading_blanks (drop place text.now) }
    ensures boundary { IsCharBoundary text.now result }
    ensures ordered { place ≤ result }
{
    let (_, rest) = text.as_bytes().split_at(place);
    place + blank_run(rest)
}

// The tokens of a marker's text.
pub(crate) fn tokens_of(alloc: Global, text: &str) -> Result<Tokens<'_>, AllocError>
    ensures whole { IfOk result (λ found. IsTrue found.whole
        → HasTokens text.now (map token_of found.items.items)) }
    ensures stopped { IfOk result (λ found. found.whole ≡ false
        → (ts : List syntax.Token) → ¬ HasTokens text.now ts) }
    ensures front { IfOk result (λ found. BeginsWith text.now (map token_of found.items.items)) }
{
    // a token of a marker has some eight bytes, with the blanks beside it
    let mut items = Vec::with_capacity(alloc, text.len() / 8 + 4)?;
    let mut start = past_blanks(text, 0);
    while start < text.len() {
        let Some((token, behind)) = token_at(text, start) else {
            return Ok(Tokens {
                items,
                whole: false,
            });
        };
        start = past_blanks(text, behind);
        items.push(token)?;
    }
    Ok(Tokens { items, whole: true })
}
