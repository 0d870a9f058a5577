ghost use Rattle.std.specs.Prelude.{◌≡◌, [], ◌∷◌, ◌≢◌, ◌↔◌, ◌^◌, ◌<◌, ◌≤◌, ℕ, IsTrue, IfSome, IfNone, IfOk, MatchOption, None, Some, List, decimal, map};
ghost use Rattle.lfg_model.specs.Firsts.{First};
ghost use Rattle.lfg_model.specs.Lists.{In};
ghost use Rattle.lfg_model.specs.Settings.{AreSettings, HasBadSetting, Placed, IsBadSetting, IsNumberTo, IsOutOfRange, IsSetTo, IsDepth, greatest_of, placed, words_set, words_or_none};
ghost use Rattle.lfg_model.specs.TemplateRules.{NoneHas};
ghost use Rattle.lfg_grammar.specs.Answers.{IsRange};
ghost use Rattle.lfg_grammar.specs.Read.{AreRead};

use itoa::Buffer;
use lfg_terms::{List, Name, Setting};
use std::alloc::{AllocError, Global};

/// The number that the word is, if it is one: decimal digits without a zero in front.
fn number_of(word: &Name) -> Option<u32>
    ensures number { IfSome result (λ n. word.now ≡ decimal n) }
    ensures none { IfNone result ((n : ℕ) → n < 2 ^ 32 → word.now ≢ decimal n) }
{
    let text = word.text();
    let Ok(number) = text.parse::<u32>() else {
        return None;
    };
    let mut buffer = Buffer::new();
    if buffer.format(number) == text {
        Some(number)
    } else {
        None
    }
}

/// The number that these words are, if they are one from 1 to the greatest.
fn number_to(greatest: u32, words: &[Name]) -> Option<u32>
    ensures number { IfSome result (IsNumberTo greatest words.now) }
    ensures none { IfNone result ((n : ℕ) → ¬ IsNumberTo greatest words.now n) }
{
    let [word] = words else {
        return None;
    };
    let Some(number) = number_of(word) else {
        return None;
    };
    if number == 0 {
        return None;
    }
    if number > greatest {
        return None;
    }
    Some(number)
}

/// The greatest number that the key can be set to, if it is set to a number.
fn greatest_of(key: &Name) -> Option<u32>
    ensures { result ≡ greatest_of key.now }
{
    if key.text() == "UNCERTAINTYDEPTH" {
        Some(8)
    } else if key.text() == "GENSIZE" {
        Some(400)
    } else if key.text() == "MAXFACTS" {
        Some(200_000)
    } else {
        None
    }
}

/// Whether the setting's number is out of range.
fn is_out_of_range(setting: &Setting) -> bool
    ensures { IsTrue result ↔ IsOutOfRange (greatest_of setting.now.key) setting.now.words }
{
    match greatest_of(&setting.key) {
        Some(greatest) => number_to(greatest, setting.words.list()).is_none(),
        None => false,
    }
}

/// Whether the key is that of one of these settings.
fn came_before(earlier: &[Setting], key: &Name) -> bool
    ensures { IsTrue result ↔ In key.now (map (λ s. s.key) earlier.now) }
{
    for setting in earlier {
        if setting.key == *key {
            return true;
        }
    }
    false
}

/// The number of the first entry whose key came before, or whose number is out of range.
fn first_bad(settings: &[Setting]) -> Option<u32>
    ensures { MatchOption result (NoneHas IsBadSetting (placed settings.now))
        (λ entry. (p : Placed) × First IsBadSetting (placed settings.now) p × (p.setting.entry ≡ entry)) }
{
    for i in 0..settings.len() {
        let setting = &settings[i];
        if came_before(&settings[..i], &setting.key) {
            return Some(setting.entry);
        }
        if is_out_of_range(setting) {
            return Some(setting.entry);
        }
    }
    None
}

/// The words that the key is set to, if it is set.
fn words_set<'a>(settings: &'a [Setting], key: &str) -> Option<&'a [Name]>
    ensures { MatchOption result (words_set key.now settings.now ≡ None) (λ words. words_set key.now settings.now ≡ Some words.now) }
{
    for setting in settings {
        if setting.key.text() == key {
            return Some(setting.words.list());
        }
    }
    None
}

/// The number, at most the greatest, that the key is set to, or this one.
fn number_set(settings: &[Setting], key: &str, greatest: u32, otherwise: u32) -> u32
    requires good { (words : List (List ℕ)) → words_set key.now settings.now ≡ Some words → ¬ IsOutOfRange (Some greatest) words }
    requires least { 1 ≤ otherwise }
    requires most { otherwise ≤ greatest }
    ensures set { IsSetTo key.now greatest otherwise settings.now result }
    ensures least { 1 ≤ result }
    ensures most { result ≤ greatest }
{
    let Some(words) = words_set(settings, key) else {
        return otherwise;
    };
    let Some(number) = number_to(greatest, words) else {
        unreachable!()
    };
    number
}

/// The same names.
fn copies_of(alloc: Global, names: &[Name]) -> Result<Vec<Name>, AllocError>
    ensures { IfOk result (λ v. v.items ≡ names.now) }
{
    let mut copies = Vec::new(alloc);
    for name in names {
        copies.push(name.clone()?)?;
    }
    Ok(copies)
}

/// The names that the key is set to, or none.
fn names_set(alloc: Global, settings: &[Setting], key: &str) -> Result<List<Name>, AllocError>
    ensures { IfOk result (λ names. names ≡ words_or_none (words_set key.now settings.now)) }
{
    let Some(words) = words_set(settings, key) else {
        return List::new(alloc, Vec::new(alloc));
    };
    let copies = copies_of(alloc, words)?;
    List::new(alloc, copies)
}

/// The name that the key is set to, if it is set to one alone.
fn name_set<'a>(settings: &'a [Setting], key: &str) -> Option<&'a Name>
    ensures { MatchOption result ((name : List ℕ) → ¬ (words_set key.now settings.now ≡ Some (name ∷ [])))
        (λ name. words_set key.now settings.now ≡ Some (name.now ∷ [])) }
{
    let words = words_set(settings, key)?;
    match words {
        [name] => Some(name),
        _ => None,
    }
}

/// What the settings of a grammar say, beside the depth of paths.
#[derive(Drop)]
pub(crate) struct Settings {
    pub(crate) root: Name,
    pub(crate) governable: List<Name>,
    pub(crate) gensize: u32,
    pub(crate) maxfacts: u32,
    pub(crate) depth: u8,
}

/// The fault of the settings, if they have one.
pub(crate) fn fault_of(settings: &[Setting]) -> Option<u32>
    ensures { MatchOption result (AreSettings settings.now) (HasBadSetting settings.now) }
{
    if let Some(entry) = first_bad(settings) {
        return Some(entry);
    }
    match name_set(settings, "ROOTCAT") {
        Some(_) => None,
        None => Some(0),
    }
}

/// The greatest number of attributes of a string of a path.
fn depth_of(settings: &[Setting]) -> u8
    requires { AreSettings settings.now }
    ensures depth { IsDepth settings.now result }
    ensures range { IsRange result }
{
    number_set(settings, "UNCERTAINTYDEPTH", 8, 3) as u8
}

/// What the settings say.
pub(crate) fn read_settings(alloc: Global, settings: &[Setting]) -> Result<Settings, AllocError>
    requires { AreSettings settings.now }
    ensures { IfOk result (AreRead settings.now) }
{
    let Some(root) = name_set(settings, "ROOTCAT") else {
        unreachable!()
    };
    Ok(Settings {
        root: root.clone()?,
        governable: names_set(alloc, settings, "GOVERNABLERELATIONS")?,
        gensize: number_set(settings, "GENSIZE", 400, 60),
        maxfacts: number_set(settings, "MAXFACTS", 200_000, 200_000),
        depth: depth_of(settings),
    })
}
