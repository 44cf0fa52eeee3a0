//! The names by which texts call the functions.
ghost use Rattle.std.specs.Prelude.{◌≡◌, Some, true};
ghost use Rattle.std.specs.List.{find, list_all};
ghost use Rattle.vortex_standard.specs.Names.{name_of, same_word, has_name, alias_of};
ghost use Rattle.vortex_standard.specs.Names.{functions, is_name, is_short, standard_named};

use crate::key_functions::KEY_FUNCTIONS;
use crate::standard::Standard;
use vortex_columns::PType;
use vortex_functions::ScalarFnVTable;
use vortex_sql_choices::extremes::Extreme;
use vortex_sql_choices::truth_tests::TruthTest;
use vortex_sql_numbers::bits::{BitOperator, Shift};
use vortex_sql_numbers::integer_casts::{Cast, Widen};
use vortex_sql_numbers::truth_casts::TruthToInt;
use vortex_sql_pads::pads::Pad;
use vortex_sql_patterns::functions::PatternFunction;
use vortex_sql_texts::letters::Letters;
use vortex_sql_texts::parts::Side;
use vortex_sql_texts::text_casts::TextToInt;
use vortex_sql_texts::texts::Measure;
use vortex_sql_texts::trims::Trim;

/// The functions that texts are written with, each once.
pub const FUNCTIONS: [Standard; 111] = [
    Standard::Coalesce,
    Standard::NullIf,
    Standard::Case,
    Standard::InList,
    Standard::IsDistinct,
    Standard::Remainder,
    Standard::Sign,
    Standard::Abs,
    Standard::BitNot,
    Standard::IntToTruth,
    Standard::TruthToText,
    Standard::StartsWith,
    Standard::Substr,
    Standard::StrPos,
    Standard::TextToTruth,
    Standard::Concat,
    Standard::IntToText,
    Standard::SplitPart,
    Standard::Replace,
    Standard::Repeat,
    Standard::Reverse,
    Standard::ConcatAll,
    Standard::Initcap,
    Standard::RegexpReplace,
    Standard::RegexpExtract,
    Standard::ConcatWs,
    Standard::Ascii,
    Standard::Chr,
    Standard::ToHex,
    Standard::BitLength,
    Standard::Translate,
    Standard::Overlay,
    Standard::Space,
    Standard::TryTextToTruth,
    Standard::Extreme(Extreme::Greatest),
    Standard::Extreme(Extreme::Least),
    Standard::TruthTest(TruthTest::IsTrue),
    Standard::TruthTest(TruthTest::IsFalse),
    Standard::TruthTest(TruthTest::IsUnknown),
    Standard::BitOperator(BitOperator::And),
    Standard::BitOperator(BitOperator::Or),
    Standard::BitOperator(BitOperator::Xor),
    Standard::Shift(Shift::Left),
    Standard::Shift(Shift::Right),
    Standard::Cast(Cast { ptype: PType::I8 }),
    Standard::Cast(Cast { ptype: PType::I16 }),
    Standard::Cast(Cast { ptype: PType::I32 }),
    Standard::Cast(Cast { ptype: PType::I64 }),
    Standard::Cast(Cast { ptype: PType::U8 }),
    Standard::Cast(Cast { ptype: PType::U16 }),
    Standard::Cast(Cast { ptype: PType::U32 }),
    Standard::Cast(Cast { ptype: PType::U64 }),
    Standard::Widen(Widen { ptype: PType::I8 }),
    Standard::Widen(Widen { ptype: PType::I16 }),
    Standard::Widen(Widen { ptype: PType::I32 }),
    Standard::Widen(Widen { ptype: PType::I64 }),
    Standard::Widen(Widen { ptype: PType::U8 }),
    Standard::Widen(Widen { ptype: PType::U16 }),
    Standard::Widen(Widen { ptype: PType::U32 }),
    Standard::Widen(Widen { ptype: PType::U64 }),
    Standard::TruthToInt(TruthToInt { ptype: PType::I8 }),
    Standard::TruthToInt(TruthToInt { ptype: PType::I16 }),
    Standard::TruthToInt(TruthToInt { ptype: PType::I32 }),
    Standard::TruthToInt(TruthToInt { ptype: PType::I64 }),
    Standard::TruthToInt(TruthToInt { ptype: PType::U8 }),
    Standard::TruthToInt(TruthToInt { ptype: PType::U16 }),
    Standard::TruthToInt(TruthToInt { ptype: PType::U32 }),
    Standard::TruthToInt(TruthToInt { ptype: PType::U64 }),
    Standard::Measure(Measure::Characters),
    Standard::Measure(Measure::Bytes),
    Standard::Side(Side::Left),
    Standard::Side(Side::Right),
    Standard::Trim(Trim::Both),
    Standard::Trim(Trim::Start),
    Standard::Trim(Trim::End),
    Standard::TextToInt(TextToInt { ptype: PType::I8 }),
    Standard::TextToInt(TextToInt { ptype: PType::I16 }),
    Standard::TextToInt(TextToInt { ptype: PType::I32 }),
    Standard::TextToInt(TextToInt { ptype: PType::I64 }),
    Standard::TextToInt(TextToInt { ptype: PType::U8 }),
    Standard::TextToInt(TextToInt { ptype: PType::U16 }),
    Standard::TextToInt(TextToInt { ptype: PType::U32 }),
    Standard::TextToInt(TextToInt { ptype: PType::U64 }),
    Standard::TryCast(Cast { ptype: PType::I8 }),
    Standard::TryCast(Cast { ptype: PType::I16 }),
    Standard::TryCast(Cast { ptype: PType::I32 }),
    Standard::TryCast(Cast { ptype: PType::I64 }),
    Standard::TryCast(Cast { ptype: PType::U8 }),
    Standard::TryCast(Cast { ptype: PType::U16 }),
    Standard::TryCast(Cast { ptype: PType::U32 }),
    Standard::TryCast(Cast { ptype: PType::U64 }),
    Standard::TryTextToInt(TextToInt { ptype: PType::I8 }),
    Standard::TryTextToInt(TextToInt { ptype: PType::I16 }),
    Standard::TryTextToInt(TextToInt { ptype: PType::I32 }),
    Standard::TryTextToInt(TextToInt { ptype: PType::I64 }),
    Standard::TryTextToInt(TextToInt { ptype: PType::U8 }),
    Standard::TryTextToInt(TextToInt { ptype: PType::U16 }),
    Standard::TryTextToInt(TextToInt { ptype: PType::U32 }),
    Standard::TryTextToInt(TextToInt { ptype: PType::U64 }),
    Standard::Letters(Letters::Lower),
    Standard::Letters(Letters::Upper),
    Standard::Pad(Pad::Left),
    Standard::Pad(Pad::Right),
    Standard::PatternFunction(PatternFunction::Like),
    Standard::PatternFunction(PatternFunction::Substr),
    Standard::PatternFunction(PatternFunction::Instr),
    Standard::PatternFunction(PatternFunction::Count),
    Standard::PatternFunction(PatternFunction::AnyCase),
    Standard::PatternFunction(PatternFunction::NotLike),
    Standard::PatternFunction(PatternFunction::NotAnyCase),
    Standard::PatternFunction(PatternFunction::Part),
];

fn is_same_word(word: &[u8], other: &[u8]) -> bool
    ensures { result ≡ same_word word.now other.now }
{
    word.eq_ignore_ascii_case(other)
}

/// The function that a word is another name of.
fn alias_of(word: &[u8]) -> Option<Standard>
    ensures { result ≡ alias_of word.now }
{
    if is_same_word(word, b"ifnull") {
        Some(Standard::Coalesce)
    } else if is_same_word(word, b"nvl") {
        Some(Standard::Coalesce)
    } else if is_same_word(word, b"if") {
        Some(Standard::Case)
    } else if is_same_word(word, b"iif") {
        Some(Standard::Case)
    } else if is_same_word(word, b"lcase") {
        Some(Standard::Letters(Letters::Lower))
    } else if is_same_word(word, b"ucase") {
        Some(Standard::Letters(Letters::Upper))
    } else if is_same_word(word, b"instr") {
        Some(Standard::StrPos)
    } else if is_same_word(word, b"char") {
        Some(Standard::Chr)
    } else if is_same_word(word, b"substring") {
        Some(Standard::Substr)
    } else if is_same_word(word, b"trim") {
        Some(Standard::Trim(Trim::Both))
    } else if is_same_word(word, b"char_length") {
        Some(Standard::Measure(Measure::Characters))
    } else if is_same_word(word, b"character_length") {
        Some(Standard::Measure(Measure::Characters))
    } else if is_same_word(word, b"len") {
        Some(Standard::Measure(Measure::Characters))
    } else if is_same_word(word, b"startswith") {
        Some(Standard::StartsWith)
    } else if is_same_word(word, b"mid") {
        Some(Standard::Substr)
    } else if is_same_word(word, b"bitand") {
        Some(Standard::BitOperator(BitOperator::And))
    } else if is_same_word(word, b"bitor") {
        Some(Standard::BitOperator(BitOperator::Or))
    } else if is_same_word(word, b"bitxor") {
        Some(Standard::BitOperator(BitOperator::Xor))
    } else if is_same_word(word, b"bitnot") {
        Some(Standard::BitNot)
    } else {
        None
    }
}

fn has_name(word: &[u8], function: Standard) -> bool
    ensures { result ≡ has_name word.now function }
{
    is_same_word(word, function.name().as_bytes())
}

/// The first function that has the name.
fn first_named(word: &[u8], functions: &[Standard]) -> Option<Standard>
    ensures { result ≡ find (has_name word.now) functions.now }
{
    for function in functions {
        if has_name(word, *function) {
            return Some(*function);
        }
    }
    None
}

/// The function of the lists that has the name.
#[tactic(auto, using(crate::proofs::Listed::in_either))]
fn listed(word: &[u8]) -> Option<Standard>
    ensures { result ≡ find (has_name word.now) functions }
{
    first_named(word, &FUNCTIONS).or(first_named(word, &KEY_FUNCTIONS))
}

/// The function that a word names, ignoring the case of ASCII letters.
pub fn named(word: &[u8]) -> Option<Standard>
    ensures { result ≡ standard_named word.now }
{
    listed(word).or(alias_of(word))
}

impl Standard {
    /// The name by which texts call the function: its identity without `sql.`.
    pub fn name(&self) -> &'static str
        ensures { result.now ≡ name_of self.now }
    {
        let id = self.id();
        id.strip_prefix("sql.").unwrap_or(id)
    }
}

/// A function's name names that function.
#[tactic(auto, using(crate::specs::NameLaws::named_back))]
pub fn names_are_read_back()
    ensures { (f : Standard) → standard_named (name_of f) ≡ Some f }
{}

/// A function's name is a lower-case letter, and lower-case letters, digits and `_`: at most 23, of
/// those that texts are written with at most 16.
#[tactic(auto, using(crate::specs::NameLaws::name_is_word, crate::specs::NameLaws::short_names))]
pub fn names_are_words()
    ensures words { (f : Standard) → is_name (name_of f) ≡ true }
    ensures short { list_all (λ f. is_short (name_of f)) FUNCTIONS ≡ true }
{}
