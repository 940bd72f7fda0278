// What the words of a call ask for.
ghost use Rattle.std.specs.Prelude.{◌≡◌, ◌≢◌, List, map, IsTrue, ◌↔◌, IfOk, MatchOption, string_bytes, codes};
ghost use Rattle.kasa_lists.specs.Lists.{Has};
ghost use Rattle.kasa_choose.specs.declared.kind.Kind.{Kind};
ghost use Rattle.kasa_top.specs.Words.{IsTextName, flag, AreFlags, IsAnalyseWith, IsAnalyse};

use kasa_choose::Kind;
use kasa_num::NoMemory;
use std::alloc::Global;

// A word that may name a text: it is not empty, and doesn't begin with `-` as flags do.
fn is_text_name(word: &str) -> bool
    ensures { IsTrue result ↔ IsTextName word.now }
{
    match word.as_bytes() {
        [] => false,
        [first, ..] => *first != b'-',
    }
}

// The word of the one command that is served so far.
fn is_command(word: &str) -> bool
    ensures { IsTrue result ↔ (word.now ≡ codes "analyse") }
{
    word == "analyse"
}

// The kind that a flag leaves out.
fn kind_of_flag(word: &str) -> Option<Kind>
    ensures { MatchOption result ((kind : Kind) → word.now ≢ flag kind) (λ kind. word.now ≡ flag kind) }
{
    match word {
        "--no-views" => Some(Kind::Views),
        "--no-across" => Some(Kind::Across),
        "--no-parallel" => Some(Kind::Parallel),
        "--no-chains" => Some(Kind::Chains),
        _ => None,
    }
}

// The kind is one of these.
fn has(kinds: &[Kind], kind: Kind) -> bool
    ensures { IsTrue result ↔ Has kinds.now kind }
{
    kinds.contains(&kind)
}

// The kinds that flags leave out; None where a word is no flag, or stands twice.
fn kinds_of_flags(alloc: Global, flags: &[String]) -> Result<Option<Vec<Kind>>, NoMemory>
    ensures { IfOk result (λ o. MatchOption o ((kinds : List Kind) → ¬ AreFlags (map string_bytes flags.now) kinds) (λ kinds. AreFlags (map string_bytes flags.now) kinds.items)) }
{
    let mut kinds = Vec::new(alloc);
    for flag in flags {
        let Some(kind) = kind_of_flag(flag.as_str()) else {
            return Ok(None);
        };
        if has(&kinds, kind) {
            return Ok(None);
        }
        kinds.push(kind)?;
    }
    Ok(Some(kinds))
}

// The words between `analyse` and the name of a model's text, and that name.
fn behind_analyse(words: &[String]) -> Option<(&[String], &str)>
    ensures { MatchOption result ((between : List _) (name : _) → ¬ IsAnalyseWith (map string_bytes words.now) between name) (λ p. IsAnalyseWith (map string_bytes words.now) (map string_bytes p.0.now) p.1.now) }
{
    let (command, rest) = words.split_first()?;
    let (name, between) = rest.split_last()?;
    if is_command(command.as_str()) && is_text_name(name.as_str()) {
        Some((between, name.as_str()))
    } else {
        None
    }
}

/// The kinds of families that `analyse` leaves out, and the name of its model's text, where the words are those of
/// `analyse`.
pub(crate) fn analyse_of(
    alloc: Global,
    words: &[String],
) -> Result<Option<(Vec<Kind>, &str)>, NoMemory>
    ensures { IfOk result (λ o. MatchOption o ((without : List Kind) (name : _) → ¬ IsAnalyse (map string_bytes words.now) without name) (λ a. IsAnalyse (map string_bytes words.now) a.0.items a.1.now)) }
{
    let Some((flags, name)) = behind_analyse(words) else {
        return Ok(None);
    };
    match kinds_of_flags(alloc, flags)? {
        Some(without) => Ok(Some((without, name))),
        None => Ok(None),
    }
}
