// The chains of comparisons in the tokens of a marker (PEP 508, "Grammar"): `and` binds closer than
// `or`, and both group to the left.

ghost use Rattle.std.specs.Prelude.{◌≡◌, ◌⊎◌, ℕ, ◌+◌, ◌≤◌, ◌∷◌, IfErr, IfNone, IfOk, IfSome};
ghost use Rattle.std.specs.Prelude.{None, false, map, true};
ghost use Rattle.pep_marker.specs.Way.Chains.{
  ChainTo,
  IsRead,
  IsWhole,
  ItemFrom,
  NoWhole,
  PartTo,
  Refuses,
  RefusesFront,
  ends,
  first_operand,
  first_operator,
  is_closed,
  link_word,
  part_ends,
};
ghost use Rattle.pep_marker.specs.Marker as syntax;
ghost use Rattle.pep_marker.specs.Marker.{IsMarker, IsNoMarker, MarkerParts};
ghost use Rattle.pep_marker.specs.Way.Token.{operand_of, token_of};
ghost use Rattle.pep_marker.specs.View.{operator_parts};

use crate::fault::MarkerFault;
use crate::making::{Comparison, Link, Making};
use crate::marker::Operator;
use crate::token::{Side, Token, tokens_of};
use std::alloc::Global;

// How many parentheses may be open at once.
const DEPTH: usize = 64;
// How many comparisons a marker may have.
const COMPARISONS: usize = 1024;

// What is made of a marker at the front of some tokens, how many comparisons it has, and the tokens
// behind it.
#[derive(Drop)]
pub(crate) struct Front<'t, 'a, P> {
    pub(crate) part: P,
    pub(crate) comparisons: usize,
    pub(crate) rest: &'t [Token<'a>],
}

// The operator at the front of the tokens, and the tokens behind it.
fn operator_at<'t, 'a>(tokens: &'t [Token<'a>]) -> Option<(Operator, &'t [Token<'a>])>
    ensures some { IfSome result (λ found. map token_of tokens.now
        ≡ syntax.operator (operator_parts found.0) ∷ map token_of found.1.now) }
    ensures none { IfNone result (first_operator (map token_of tokens.now) ≡ None) }
{
    let [first, behind @ ..] = tokens else {
        return None;
    };
    match *first {
        Token::Operator(operator) => Some((operator, behind)),
        _ => None,
    }
}

// The operand at the front of the tokens, and the tokens behind it.
fn operand_at<'t, 'a>(tokens: &'t [Token<'a>]) -> Option<(Side<'a>, &'t [Token<'a>])>
    ensures some { IfSome result (λ found. map token_of tokens.now
        ≡ syntax.operand (operand_of found.0) ∷ map token_of found.1.now) }
    ensures none { IfNone result (first_operand (map token_of tokens.now) ≡ None) }
{
    let [first, behind @ ..] = tokens else {
        return None;
    };
    match *first {
        Token::Operand(side) => Some((side, behind)),
        _ => None,
    }
}

// The comparison of this operand with what is behind it.
fn comparison<'t, 'a, M: Making>(
    alloc: Global,
    making: &M,
    left: Side<'a>,
    behind: &'t [Token<'a>],
    room: usize,
) -> Result<Front<'t, 'a, M::Part>, MarkerFault>
    ensures read { (depth : ℕ) → IfOk result (IsRead (M.means making.now)
        (ItemFrom depth (syntax.operand (operand_of left.entry) ∷ map token_of behind.now)) room) }
    ensures refused { (depth : ℕ) → IfErr result (RefusesFront ItemFrom depth room
        (syntax.operand (operand_of left.entry) ∷ map token_of behind.now)) }
{
    let Some((operator, behind)) = operator_at(behind) else {
        return Err(MarkerFault::BadMarker);
    };
    let Some((right, rest)) = operand_at(behind) else {
        return Err(MarkerFault::BadMarker);
    };
    if room == 0 {
        return Err(MarkerFault::TooDeep);
    }
    Ok(Front {
        part: making.compared(
            alloc,
            Comparison {
                left,
                operator,
                right,
            },
        )?,
        comparisons: 1,
        rest,
    })
}

// The item at the front of the tokens, where `depth` parentheses more may be opened, and there is
// room for so many comparisons.
#[cycle(chains)]
fn item_at<'t, 'a, M: Making>(
    alloc: Global,
    making: &M,
    tokens: &'t [Token<'a>],
    depth: usize,
    room: usize,
) -> Result<Front<'t, 'a, M::Part>, MarkerFault>
    ensures read { IfOk result (IsRead (M.means making.now)
        (ItemFrom depth (map token_of tokens.now)) room) }
    ensures refused { IfErr result (RefusesFront ItemFrom depth room (map token_of tokens.now)) }
{
    let [first, behind @ ..] = tokens else {
        return Err(MarkerFault::BadMarker);
    };
    match *first {
        Token::Operand(left) => comparison(alloc, making, left, behind, room),
        Token::Open if depth == 0 => Err(MarkerFault::TooDeep),
        Token::Open => in_parentheses(alloc, making, behind, depth - 1, room),
        _ => Err(MarkerFault::BadMarker),
    }
}

// The or-chain behind a parenthesis that was opened, up to the one that closes it.
#[cycle(chains)]
fn in_parentheses<'t, 'a, M: Making>(
    alloc: Global,
    making: &M,
    behind: &'t [Token<'a>],
    depth: usize,
    room: usize,
) -> Result<Front<'t, 'a, M::Part>, MarkerFault>
    ensures read { IfOk result (IsRead (M.means making.now)
        (ItemFrom (depth + 1) (syntax.open_parenthesis ∷ map token_of behind.now)) room) }
    ensures refused { IfErr result (RefusesFront ItemFrom (depth + 1) room
        (syntax.open_parenthesis ∷ map token_of behind.now)) }
{
    let front = chain(alloc, making, Link::Or, behind, depth, room)?;
    let Some(rest) = behind_close(front.rest) else {
        return Err(MarkerFault::BadMarker);
    };
    Ok(Front { rest, ..front })
}

// The first part of a chain at the front of the tokens.
#[cycle(chains)]
fn part_at<'t, 'a, M: Making>(
    alloc: Global,
    making: &M,
    link: Link,
    tokens: &'t [Token<'a>],
    depth: usize,
    room: usize,
) -> Result<Front<'t, 'a, M::Part>, MarkerFault>
    ensures read { IfOk result (IsRead (M.means making.now)
        (PartTo link depth (map token_of tokens.now)) room) }
    ensures refused { IfErr result (RefusesFront (PartTo link) depth room (map token_of tokens.now)) }
{
    match link {
        Link::And => item_at(alloc, making, tokens, depth, room),
        Link::Or => chain(alloc, making, Link::And, tokens, depth, room),
    }
}

// The chain at the front of the tokens.
#[cycle(chains)]
fn chain<'t, 'a, M: Making>(
    alloc: Global,
    making: &M,
    link: Link,
    tokens: &'t [Token<'a>],
    depth: usize,
    room: usize,
) -> Result<Front<'t, 'a, M::Part>, MarkerFault>
    ensures read { IfOk result (IsRead (M.means making.now)
        (ChainTo link depth (map token_of tokens.now)) room) }
    ensures refused { IfErr result (RefusesFront (ChainTo link) depth room (map token_of tokens.now)) }
{
    let mut front = part_at(alloc, making, link, tokens, depth, room)?;
    while let Some(behind) = behind_word(link, front.rest) {
        let left = room - front.comparisons;
        let next = part_at(alloc, making, link, behind, depth, left)?;
        front = Front {
            part: making.joined(alloc, link, front.part, next.part)?,
            comparisons: front.comparisons + next.comparisons,
            rest: next.rest,
        };
    }
    Ok(front)
}

// The tokens behind the `)` at the front.
fn behind_close<'t, 'a>(tokens: &'t [Token<'a>]) -> Option<&'t [Token<'a>]>
    ensures some { IfSome result (λ behind. map token_of tokens.now
        ≡ syntax.close_parenthesis ∷ map token_of behind.now) }
    ensures none { IfNone result (is_closed (map token_of tokens.now) ≡ false) }
{
    match tokens {
        [first, behind @ ..] if matches!(*first, Token::Close) => Some(behind),
        _ => None,
    }
}

// The tokens behind the link's word at the front, where a part of its chain has ended.
fn behind_word<'t, 'a>(link: Link, tokens: &'t [Token<'a>]) -> Option<&'t [Token<'a>]>
    requires { part_ends link (map token_of tokens.now) ≡ true }
    ensures some { IfSome result (λ behind. map token_of tokens.now
        ≡ link_word link ∷ map token_of behind.now) }
    ensures none { IfNone result (ends link (map token_of tokens.now) ≡ true) }
{
    let [first, behind @ ..] = tokens else {
        return None;
    };
    match (link, *first) {
        (Link::And, Token::And) | (Link::Or, Token::Or) => Some(behind),
        _ => None,
    }
}

// What is made of the marker that the tokens are, to their end.
fn made_of_tokens<M: Making>(
    alloc: Global,
    making: &M,
    tokens: &[Token],
) -> Result<M::Part, MarkerFault>
    ensures read { IfOk result (λ part. IsWhole (map token_of tokens.now)
        (M.means making.now part)) }
    ensures refused { IfErr result (Refuses (NoWhole (map token_of tokens.now))
        64 1024 (map token_of tokens.now)) }
{
    let front = chain(alloc, making, Link::Or, tokens, DEPTH, COMPARISONS)?;
    if !front.rest.is_empty() {
        return Err(MarkerFault::BadMarker);
    }
    Ok(front.part)
}

// What is made of the marker that the text is.
pub(crate) fn made_of<M: Making>(
    alloc: Global,
    making: &M,
    text: &str,
) -> Result<M::Part, MarkerFault>
    ensures ok { IfOk result (λ part. (m : MarkerParts) × IsMarker text.now m
        × M.means making.now part m) }
    ensures refused { IfErr result (λ e. (e ≡ MarkerFault.NoMemory) ⊎ IsNoMarker text.now e) }
{
    let found = tokens_of(alloc, text)?;
    let part = made_of_tokens(alloc, making, found.items.as_slice())?;
    if !found.whole {
        return Err(MarkerFault::BadMarker);
    }
    Ok(part)
}
