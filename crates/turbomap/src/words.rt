// The words of a command line, read as a command.

ghost use Rattle.std.specs.Prelude.{◌≡◌, ◌≤◌, ◌&&◌, true, nat_le, if◌then◌else◌, None, Some, map, option_map, slice_index, string_bytes, bytes_eq, IfSome};
ghost use Rattle.std.specs.List.{list_any};
ghost use Rattle.tm_texts.specs.Limits.{least_sample, most_sample};
ghost use Rattle.turbomap.specs.Names.{are_names, is_apart, files_of};
ghost use Rattle.turbomap.specs.Words.{seen, asked_of, with_files, two_words, four_words, five_words, six_words};
ghost use Rattle.turbomap.specs.Words.{map_form, check_of, sim_of, show_of, large_of, bound_of, digit_between, number_between};

use crate::reading::{BoundWords, CheckWords, LargeWords, MapWords, Reading, Rows, SimWords};
use tm_bits::MOST_K;
use tm_texts::{LEAST_SAMPLE, MOST_B, MOST_D, MOST_SAMPLE};

/// The reading of the words; `None` where they have none.
pub fn reading_of(words: &[String]) -> Option<Reading<'_>>
    ensures { option_map seen result ≡ asked_of (map string_bytes words.now) }
{
    match words {
        [verb, input] => of_two(verb.as_str(), input.as_str()),
        [verb, first, second, third] => {
            of_four(
                verb.as_str(),
                first.as_str(),
                second.as_str(),
                third.as_str(),
            )
        }
        [verb, k, d, files @ ..] => of_files(verb.as_str(), k.as_str(), d.as_str(), files),
        _ => None,
    }
}

// A verb, the numbers K and D, and two or three words more.
fn of_files<'a>(verb: &str, k: &str, d: &str, words: &'a [String]) -> Option<Reading<'a>>
    ensures { option_map seen result ≡ with_files verb.now k.now d.now (map string_bytes words.now) }
{
    match words {
        [third, fourth] => of_five(verb, k, d, third.as_str(), fourth.as_str()),
        [input, output, certificate] => of_six(
            verb,
            k,
            d,
            input.as_str(),
            output.as_str(),
            certificate.as_str(),
        ),
        _ => None,
    }
}

// Two words: `show IN`.
fn of_two<'a>(verb: &str, input: &'a str) -> Option<Reading<'a>>
    ensures { option_map seen result ≡ two_words verb.now input.now }
{
    match verb {
        "show" => show_of(input),
        _ => None,
    }
}

// Four words: `sim IN VECTORS OUT` or `large N K D`.
fn of_four<'a>(verb: &str, first: &'a str, second: &'a str, third: &'a str) -> Option<Reading<'a>>
    ensures { option_map seen result ≡ four_words verb.now first.now second.now third.now }
{
    match verb {
        "sim" => sim_of(first, second, third),
        "large" => large_of(first, second, third),
        _ => None,
    }
}

// Five words: `map K D IN OUT`, `prime K D IN OUT` or `bound K D B IN`.
#[tactic(auto, unfolding(crate::specs::Words::five_words))]
fn of_five<'a>(verb: &str, k: &str, d: &str, third: &'a str, fourth: &'a str) -> Option<Reading<'a>>
    ensures { option_map seen result ≡ five_words verb.now k.now d.now third.now fourth.now }
{
    match verb {
        "map" => map_of(Rows::Single, k, d, third, fourth, None),
        "prime" => map_of(Rows::Prime, k, d, third, fourth, None),
        "bound" => bound_of(k, d, third, fourth),
        _ => None,
    }
}

// Six words: `map K D IN OUT CERT`, `prime K D IN OUT CERT` or `check K D IN OUT CERT`.
#[tactic(auto, unfolding(crate::specs::Words::six_words))]
fn of_six<'a>(
    verb: &str,
    k: &str,
    d: &str,
    input: &'a str,
    output: &'a str,
    certificate: &'a str,
) -> Option<Reading<'a>>
    ensures { option_map seen result ≡ six_words verb.now k.now d.now input.now output.now certificate.now }
{
    match verb {
        "map" => map_of(Rows::Single, k, d, input, output, Some(certificate)),
        "prime" => map_of(Rows::Prime, k, d, input, output, Some(certificate)),
        "check" => check_of(k, d, input, output, certificate),
        _ => None,
    }
}

// The words after `map` or `prime`, read: with a name for the certificate where there is a sixth word.
fn map_of<'a>(
    rows: Rows,
    k: &str,
    d: &str,
    input: &'a str,
    output: &'a str,
    certificate: Option<&'a str>,
) -> Option<Reading<'a>>
    ensures { option_map seen result ≡ map_form rows k.now d.now input.now output.now (option_map (λ name. name.now) certificate.entry) }
{
    let k = digit(k, 2, MOST_K)?;
    let d = digit(d, 0, MOST_D)?;
    if !are_files(input, output, certificate) {
        return None;
    }
    Some(Reading::Map(MapWords {
        rows,
        k,
        d,
        input,
        output,
        certificate,
    }))
}

// The words after `check`, read.
fn check_of<'a>(
    k: &str,
    d: &str,
    input: &'a str,
    output: &'a str,
    certificate: &'a str,
) -> Option<Reading<'a>>
    ensures { option_map seen result ≡ check_of k.now d.now input.now output.now certificate.now }
{
    let k = digit(k, 2, MOST_K)?;
    let d = digit(d, 0, MOST_D)?;
    if !are_names(&[input, output, certificate]) {
        return None;
    }
    Some(Reading::Check(CheckWords {
        k,
        d,
        input,
        output,
        certificate,
    }))
}

// The words after `sim`, read.
fn sim_of<'a>(input: &'a str, vectors: &'a str, output: &'a str) -> Option<Reading<'a>>
    ensures { option_map seen result ≡ sim_of input.now vectors.now output.now }
{
    if are_names(&[input, vectors, output]) {
        Some(Reading::Sim(SimWords {
            input,
            vectors,
            output,
        }))
    } else {
        None
    }
}

// The word after `show`, read.
fn show_of(input: &str) -> Option<Reading<'_>>
    ensures { option_map seen result ≡ show_of input.now }
{
    if are_names(&[input]) {
        Some(Reading::Show(input))
    } else {
        None
    }
}

// The words after `large`, read.
fn large_of<'a>(number: &str, k: &str, d: &str) -> Option<Reading<'a>>
    ensures { option_map seen result ≡ large_of number.now k.now d.now }
{
    let number = sample_number(number)?;
    let k = digit(k, 2, MOST_K)?;
    let d = digit(d, 0, MOST_D)?;
    Some(Reading::Large(LargeWords { number, k, d }))
}

// The words after `bound`, read.
fn bound_of<'a>(k: &str, d: &str, b: &str, input: &'a str) -> Option<Reading<'a>>
    ensures { option_map seen result ≡ bound_of k.now d.now b.now input.now }
{
    let k = digit(k, 2, MOST_K)?;
    let d = digit(d, 0, MOST_D)?;
    let b = digit(b, 0, MOST_B)?;
    if !are_names(&[input]) {
        return None;
    }
    Some(Reading::Bound(BoundWords { k, d, b, input }))
}

// Whether the names of two files or three are not empty and differ pairwise.
fn are_files(input: &str, output: &str, certificate: Option<&str>) -> bool
    ensures { result ≡ are_names (files_of input.now output.now (option_map (λ name. name.now) certificate.entry)) }
{
    match certificate {
        None => are_names(&[input, output]),
        Some(certificate) => are_names(&[input, output, certificate]),
    }
}

// Whether the names of files are not empty and differ pairwise.
fn are_names(names: &[&str]) -> bool
    ensures { result ≡ are_names (map (λ name. name.now) names.now) }
{
    match names.split_first() {
        None => true,
        Some((name, others)) => is_apart(name, others) && are_names(others),
    }
}

// Whether the name is not empty and none of the others.
#[tactic(auto, using(crate::proofs::Names::any_seen))]
fn is_apart(name: &str, others: &[&str]) -> bool
    ensures { result ≡ is_apart name.now (map (λ other. other.now) others.now) }
{
    !name.is_empty() && !is_among(name, others)
}

// Whether the name is one of the others.
fn is_among(name: &str, others: &[&str]) -> bool
    ensures { result ≡ list_any (λ other. bytes_eq other.now name.now) others.now }
{
    others.iter().any(|other| *other == name)
}

// The number that one decimal digit spells, where it is in the range.
fn digit(word: &str, least: u8, most: u8) -> Option<u8>
    requires { most ≤ 9 }
    ensures number { result ≡ digit_between least most word.now }
    ensures range { IfSome result (λ n. (least ≤ n) × (n ≤ most)) }
{
    match word.as_bytes() {
        [byte] if least <= byte.wrapping_sub(b'0') && byte.wrapping_sub(b'0') <= most => {
            Some(byte - b'0')
        }
        _ => None,
    }
}

// The number of a sample that decimal digits spell, the first of them not 0.
fn sample_number(word: &str) -> Option<u32>
    ensures number { result ≡ number_between least_sample most_sample word.now }
    ensures range { IfSome result (λ n. (least_sample ≤ n) × (n ≤ most_sample)) }
{
    if is_headed(word) { parsed(word) } else { None }
}

// The number of a sample that the word spells, by its value.
fn parsed(word: &str) -> Option<u32>
    requires headed { (nat_le 49 (slice_index word.now 0) && nat_le (slice_index word.now 0) 57) ≡ true }
    ensures number { result ≡ number_between least_sample most_sample word.now }
    ensures range { IfSome result (λ n. (least_sample ≤ n) × (n ≤ most_sample)) }
{
    match word.parse::<u32>() {
        Ok(number) => within(number),
        Err(_) => None,
    }
}

// The number, where a sample has it.
fn within(number: u32) -> Option<u32>
    ensures number { result ≡ (if nat_le least_sample number && nat_le number most_sample then Some number else None) }
    ensures range { IfSome result (λ n. (least_sample ≤ n) × (n ≤ most_sample)) }
{
    if LEAST_SAMPLE <= number && number <= MOST_SAMPLE {
        Some(number)
    } else {
        None
    }
}

// Whether the word begins with a digit other than 0.
fn is_headed(word: &str) -> bool
    ensures { result ≡ nat_le 49 (slice_index word.now 0) && nat_le (slice_index word.now 0) 57 }
{
    match word.as_bytes().first() {
        Some(first) => b'1' <= *first && *first <= b'9',
        None => false,
    }
}
