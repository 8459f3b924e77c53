//! Components of strings: lengths, languages and patterns.
ghost use Rattle.std.specs.Prelude.{◌≡◌, ◌<◌, length, option_map};
ghost use Rattle.std.specs.List.{Contains};
ghost use Rattle.literal_order.specs.Texts.{string_value};
ghost use Rattle.rdf_model.specs.Numbers.{term_at};
ghost use Rattle.shape_model.specs.Patterns.{IsPatternOf};

use crate::case::{Case, site_of};
use crate::tables::{Calls, assert_table};
use component_rows::{Site, named};
use outside::{MakeFault, Maker, RegexMaker};
use rdf_model::ListNames;
use regex::Regex;
use shape_model::ResultRow;
use std::alloc::{AllocError, Global};
use std::process::Abort;
use string_constraints::{Matchers, language_in, max_length, min_length, pattern, unique_lang};

// Lengths equal to the bound, of characters of more bytes than one, of IRIs and of ill-typed literals; bounds of
// other types, which forbid no length.
const LENGTHS: &str = "\
MinLength; 2^integer; ^string a^string ab^string abc^string;; ^string a^string
MaxLength; 2^integer; ^string a^string ab^string abc^string;; abc^string
MinLength; 3^integer; äöü^string 日本^string e:a e: _1 five^integer 12^integer a@en;; _1 e: 12^integer a@en 日本^string
MaxLength; 3^integer; äöü^string 日本^string e:a e:ab _1 five^integer 12^integer a@en;; _1 e:ab five^integer
MinLength; 0^integer; ^string _1 e:a;; _1
MaxLength; 0^integer; ^string _1 a^string;; _1 a^string
MinLength; 5^decimal; ^string a^string _2;; _2
MaxLength; 1^integer; 😀^string 😀a^string 😀@en;; 😀a^string
MinLength; 2^integer; 😀^string 😀a^string five^integer;; 😀^string
MaxLength; -1^integer; ^string;; ^string
MinLength; -1^integer; ^string;;
MaxLength; 9^integer;;;";

// Ranges and tags of both cases, whole subtags, any tag, empty lists, repeated members.
const LANGUAGES: &str = "\
LanguageIn; e:L; x@en x@EN-us x@english x@de x^string e:a _1; en^string; _1 e:a x@de x@english x^string
LanguageIn; e:L; x@en y@DE-at z@fr; EN^string De^string; z@fr
LanguageIn; e:L; x@en-us x@en; en-US^string; x@en
LanguageIn; e:L; x@en x^string e:a; *^string; e:a x^string
LanguageIn; e:L; x@en x^string;; x@en x^string
LanguageIn; e:L; x@fr y@fr z@de; fr^string fr^string; z@de
LanguageIn; e:L; five^integer x@EN; en^string; five^integer
LanguageIn; e:L;; en^string;
LanguageIn; e:L; x@en; ^string _1 e:a; x@en";

// One result for each tag that two value nodes have, whichever their case; texts without a tag share none. Another
// literal than true has no effect.
const TAGS: &str = "\
UniqueLang; true^boolean; x@en y@EN z@de w@de;; -|-|de^string -|-|en^string
UniqueLang; true^boolean; x@en x@EN;;
UniqueLang; true^boolean; a@en b@en c@en;; -|-|en^string
UniqueLang; true^boolean; x@en x@en-us y@de x^string y^string e:a _1;;
UniqueLang; true^boolean; a@EN-us b@en-US;; -|-|en-us^string
UniqueLang; true^boolean; a@en b@EN c@de d@DE e@fr;; -|-|de^string -|-|en^string
UniqueLang; true^boolean; five^integer six^integer e:a _1 x@en;;
UniqueLang; 1^boolean; x@en y@EN;;
UniqueLang; false^boolean; x@en y@EN;;
UniqueLang; true^string; x@en y@EN;;
UniqueLang; true^boolean;;;";

// Patterns that match a part, the whole or nothing; flags, where other terms tell them.
const PATTERNS: &str = "\
Pattern; ^a+$^string; aa^string b^string;; b^string
Pattern; b^string; abc^string e:b xb@en _1 B^string 5^integer;; _1 5^integer B^string
Pattern; b^string; abc^string B^string _1; i; _1
Pattern; ^string; ^string _1 e:a;; _1
Pattern; [0-9]{2}^string; 12^integer 1^integer five^integer;; 1^integer five^integer
Pattern; ^e:^string; e:a f:a^string _1 e:^string;; _1 f:a^string
Pattern; ^.$^string; a^string 日^string ab^string;; ab^string
Pattern; x^string;;;";

fn string_rows(
    component: &str,
    site: &Site<'_, ListNames>,
    others: &[u32],
) -> Result<Vec<ResultRow>, AllocError>
    requires { (n : _) → Contains others.now n → n < length site.now.terms }
{
    match component {
        "MinLength" => min_length(site),
        "MaxLength" => max_length(site),
        "LanguageIn" => language_in(site, others),
        _ => unique_lang(site),
    }
}

pub(crate) fn string_rows_of(alloc: Global, case: &Case<'_>) -> Result<Vec<ResultRow>, AllocError> {
    string_rows(case.component(), &site_of(alloc, case), case.others())
}

#[test]
fn lengths_and_languages(rt: HostRuntime) -> Result<(), AllocError> {
    for table in [LENGTHS, LANGUAGES, TAGS] {
        assert_table(&rt, rt.alloc(), Calls::Strings, table)?;
    }
    Ok(())
}

// The text of the parameter, if it has one.
fn pattern_of<'a>(case: &'a Case<'_>) -> Option<&'a str>
    ensures { option_map (λ text. text.now) result ≡ string_value (term_at case.now.names case.now.parameter) }
{
    literal_order::str(named(case.names(), case.parameter()))
}

fn rows_of_regex(
    alloc: Global,
    case: &Case<'_>,
    regex: &Regex,
    flags: &str,
) -> Result<Vec<ResultRow>, AllocError>
    requires { IsPatternOf (term_at case.now.names case.now.parameter) flags.now regex.now }
{
    let mut matchers = Matchers::new(alloc);
    let matcher = matchers.matcher_of(alloc, regex, flags)?;
    pattern(&site_of(alloc, case), matcher)
}

// The flags are what a row has for other terms.
pub(crate) fn pattern_rows(
    rt: &impl Abort,
    alloc: Global,
    case: &Case<'_>,
    line: &str,
) -> Result<Vec<ResultRow>, AllocError> {
    let flags = line.split(';').nth(3).unwrap_or("").trim();
    let Some(text) = pattern_of(case) else {
        panic!(rt; "{line}")
    };
    match RegexMaker::new(alloc).build(alloc, text, flags) {
        Ok(regex) => rows_of_regex(alloc, case, &regex, flags),
        Err(MakeFault::Refused) => panic!(rt; "{line}"),
        Err(MakeFault::Memory) => Err(AllocError),
    }
}

#[test]
fn patterns(rt: HostRuntime) -> Result<(), AllocError> {
    assert_table(&rt, rt.alloc(), Calls::Patterns, PATTERNS)
}
