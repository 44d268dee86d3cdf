//! The tokens of a text.

ghost use Rattle.std.specs.Prelude.{◌≡◌, ◌+◌, ◌==◌, IfOk, IsTrue, count_by, true};
ghost use Rattle.std.specs.List.{list_all};
ghost use Rattle.wf_model.specs.NamelistTokens.{last_line, line_begins, namelist_tokens, scan};
ghost use Rattle.wf_namelist.specs.Groups.{is_named};

use crate::place::{Place, is_apart};
use crate::step::{Step, step_at};
use crate::token::Begun;
use std::alloc::{AllocError, Global};
use wf_model::{NamelistToken, Sort};

/// The number of the next line, in 32 bits.
fn next_line(line: u32) -> Result<u32, AllocError>
    ensures { IfOk result (λ n. n ≡ line + 1) }
{
    line.checked_add(1).ok_or(AllocError)
}

/// The tokens of a text without its end.
fn scan(alloc: Global, bytes: &[u8]) -> Result<Vec<NamelistToken>, AllocError>
    ensures { IfOk result (λ v. v.items ≡ scan line_begins 1 true 0 bytes.now) }
{
    let mut tokens = Vec::new(alloc);
    let mut place = Place::LineBegins;
    let mut line: u32 = 1;
    let mut apart = true;
    let mut at = 0;
    while at < bytes.len() {
        let (_, after) = bytes.split_at(at + 1);
        match step_at(alloc, place, bytes[at], after)? {
            Step::LineEnds(next) => {
                line = next_line(line)?;
                place = next;
                apart = true;
                at += 1;
            }
            Step::Passes(next) => {
                place = next;
                apart = true;
                at += 1;
            }
            Step::Begins(token) => {
                let Begun { sort, size, next } = token;
                let apart_here = is_apart(place, apart);
                tokens.push(NamelistToken {
                    sort,
                    line,
                    apart: apart_here,
                })?;
                place = next;
                apart = false;
                at += size + 1;
            }
        }
    }
    Ok(tokens)
}

fn line_feeds(bytes: &[u8]) -> usize
    ensures count { result ≡ count_by (λ b. b == 10) bytes.now }
{
    bytes.iter().filter(|b| **b == b'\n').count()
}

/// The line of the last byte, where a line feed belongs to the line that it ends.
fn last_line(bytes: &[u8]) -> Result<u32, AllocError>
    ensures { IfOk result (λ n. n ≡ last_line bytes.now) }
{
    let count = line_feeds(&bytes[..bytes.len().saturating_sub(1)]);
    next_line(u32::try_from(count).map_err(|_| AllocError)?)
}

/// The tokens of a text, and its end as a last one.
#[tactic(auto, using(crate::proofs::NamedGroups::tokens_named), unfolding(wf_model::specs::NamelistTokens::namelist_tokens))]
pub(crate) fn namelist_tokens(alloc: Global, bytes: &[u8]) -> Result<Vec<NamelistToken>, AllocError>
    ensures tokens { IfOk result (λ v. v.items ≡ namelist_tokens bytes.now) }
    ensures named { IfOk result (λ v. IsTrue (list_all is_named v.items)) }
{
    let mut tokens = scan(alloc, bytes)?;
    let sort = Sort::EndOfText;
    let line = last_line(bytes)?;
    let apart = true;
    tokens.push(NamelistToken { sort, line, apart })?;
    Ok(tokens)
}
