// Numbers with commas between, read and written.
ghost use Rattle.std.specs.Prelude.{◌≡◌, ◌++◌, ◌∷◌, OnOk, IfOk, map};
ghost use Rattle.std.specs.Fmt.{decimal};
ghost use Rattle.std.specs.List.{flat_map, join_with_byte, list_all};
ghost use Rattle.std.specs.String.{string_bytes};
ghost use Rattle.sp_lines.specs.Answers.{Reads};
ghost use Rattle.sp_lines.specs.Cells.{each_at, is_number, numbers_at, numbers_word, pieces};

use crate::places::{named, number_of, ranged};
use crate::writing::{push_field, push_name_field};
use crate::{Fault, LineRefused};
use sp_base::{Listed, Memory, push};
use sp_text::push_number;
use std::alloc::Global;

/// So many numbers up to the greatest, with commas between; none where the word is `same`.
#[tactic(auto, unfolding(crate::specs::Cells::numbers_at))]
pub fn numbers(
    alloc: Global,
    word: &[u8],
    count: usize,
    most: u32,
) -> Result<Option<Listed<u32>>, LineRefused>
    ensures { Reads result (numbers_at count most word.now) }
{
    if named(word, b"same") {
        return Ok(None);
    }
    let pieces = pieces(alloc, word)?;
    if !are_numbers(&pieces) {
        return Err(LineRefused::Bad(Fault::Number));
    }
    if pieces.as_slice().len() != count {
        return Err(LineRefused::Bad(Fault::Range));
    }
    let numbers = each(alloc, &pieces, most)?;
    Ok(Some(numbers))
}

/// What stands between the commas of a word.
fn pieces<'a>(alloc: Global, word: &'a [u8]) -> Result<Vec<&'a [u8]>, Memory>
    ensures { IfOk result (λ ws. map (λ w. w.now) ws.items ≡ pieces word.now) }
{
    Ok(word.split(|byte| *byte == b',').collect(alloc)?)
}

/// Whether each word is a number.
fn are_numbers(words: &[&[u8]]) -> bool
    ensures { result ≡ list_all is_number (map (λ w. w.now) words.now) }
{
    are_all_numbers(words)
}

fn are_all_numbers(words: &[&[u8]]) -> bool
    ensures { result ≡ list_all (λ w. is_number w.now) words.now }
{
    words.iter().all(|word| number_of(word).is_some())
}

/// The numbers of these words, none above the greatest.
fn each(alloc: Global, words: &[&[u8]], most: u32) -> Result<Listed<u32>, LineRefused>
    ensures { Reads result (each_at most (map (λ w. w.now) words.now)) }
{
    let mut numbers = Vec::new(alloc);
    'words: for word in words {
        let number = ranged(word, 0, u64::from(most))?;
        push(&mut numbers, number as u32)?;
    }
    Ok(Listed::from_vec(numbers))
}

/// Appends a space and numbers with commas between, or `same` for those of an earlier line. After an error the text is unspecified.
#[tactic(auto, unfolding(crate::specs::Cells::numbers_word))]
pub fn push_numbers_field(out: &mut String, numbers: &Option<Listed<u32>>) -> Result<(), Memory>
    ensures { OnOk result (string_bytes out.new ≡ string_bytes out.old ++ (32 ∷ numbers_word numbers.now)) }
{
    match numbers {
        Some(numbers) => push_joined(out, numbers.as_slice()),
        None => push_name_field(out, "same"),
    }
}

fn push_joined(out: &mut String, numbers: &[u32]) -> Result<(), Memory>
    ensures { OnOk result (string_bytes out.new ≡ string_bytes out.old ++ (32 ∷ join_with_byte 44 (map decimal numbers.now))) }
{
    let [first, more @ ..] = numbers else {
        out.push(' ')?;
        return Ok(());
    };
    push_first(out, u64::from(*first), more)
}

/// Appends a space and a number, and each of the others after a comma.
fn push_first(out: &mut String, first: u64, more: &[u32]) -> Result<(), Memory>
    ensures { OnOk result (string_bytes out.new ≡ string_bytes out.old ++ (32 ∷ join_with_byte 44 (map decimal (first ∷ more.now)))) }
{
    push_field(out, first)?;
    push_more(out, more)
}

/// Appends numbers, each after a comma.
fn push_more(out: &mut String, numbers: &[u32]) -> Result<(), Memory>
    ensures { OnOk result (string_bytes out.new ≡ string_bytes out.old ++ flat_map (λ n. 44 ∷ decimal n) numbers.now) }
{
    'numbers: for number in numbers {
        push_after_comma(out, *number)?;
    }
    Ok(())
}

fn push_after_comma(out: &mut String, number: u32) -> Result<(), Memory>
    ensures { OnOk result (string_bytes out.new ≡ string_bytes out.old ++ (44 ∷ decimal number)) }
{
    out.push(',')?;
    push_number(out, u64::from(number))
}
