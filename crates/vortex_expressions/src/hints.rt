//! What other languages have and this one lacks, and what there is.

const WINDOWS: &str = "no window functions: each row is computed by itself";

const AGGREGATES: &str = "no aggregates: each row is computed by itself";

const QUERIES: &str = "no queries: this is an expression over the columns of one table";

const SUBQUERIES: &str = "no subqueries: a in (1, 2) compares with a list of values";

pub(crate) const CLOCKS: &str =
    "no current time and no zones: compare with a date or a timestamp, as '2024-02-29'::date";

const REGULAR: &str = "write s ~ 'a+', or s ~* 'a+' where case does not count";

const COLLATIONS: &str = "no collations: texts compare by their bytes";

const ARRAYS: &str = "no arrays: a in (1, 2) compares with a list of values";

const COLUMNS: &str =
    "name each column; rowfn_stream --append keeps all, and --where alone returns them";

const POWERS: &str = "no powers: write a * a";

const DISTANCES: &str =
    "write a - b for the days between dates, epoch(a) - epoch(b) for the seconds between timestamps";

const COUNTED: &str =
    "write datediff('day', a, b), or of months (year(b) - year(a)) * 12 + month(b) - month(a)";

const FORMATTED: &str = "write s || t, with lpad(n::text, 3, '0') for a width";

const SAFE: &str = "write try_cast(a as int)";

const LOGARITHMS: &str = "no logarithms, exponentials or functions of angles";

/// Words that other languages have behind an operand.
const BEHIND: [(&str, &str); 19] = [
    ("over", WINDOWS),
    ("filter", AGGREGATES),
    ("within", AGGREGATES),
    ("where", QUERIES),
    ("group", QUERIES),
    ("order", QUERIES),
    ("having", QUERIES),
    ("limit", QUERIES),
    ("union", QUERIES),
    ("join", QUERIES),
    ("collate", COLLATIONS),
    ("similar", REGULAR),
    ("glob", REGULAR),
    ("match", REGULAR),
    ("at", CLOCKS),
    ("xor", "write a <> b"),
    ("div", "write a / b"),
    ("mod", "write a % b"),
    ("placing", "write overlay(s, t, 2, 3)"),
];

/// Words that other languages have before what begins with one of these bytes, or before anything;
/// here they are names.
const BEFORE: [(&str, &[u8], &str); 7] = [
    ("select", b"", SUBQUERIES),
    ("exists", b"(", SUBQUERIES),
    ("any", b"(", SUBQUERIES),
    ("some", b"(", SUBQUERIES),
    ("all", b"(", SUBQUERIES),
    ("array", b"[", ARRAYS),
    ("count", b"*", AGGREGATES),
];

/// Functions that other languages have.
const FUNCTIONS: [(&str, &str); 75] = [
    ("sum", AGGREGATES),
    ("count", AGGREGATES),
    ("avg", AGGREGATES),
    (
        "max",
        "no aggregates: greatest(a, b) is the greatest in each row",
    ),
    ("min", "no aggregates: least(a, b) is the least in each row"),
    ("row_number", WINDOWS),
    ("rank", WINDOWS),
    ("lag", WINDOWS),
    ("lead", WINDOWS),
    ("exists", SUBQUERIES),
    ("any", SUBQUERIES),
    ("some", SUBQUERIES),
    ("all", SUBQUERIES),
    ("now", CLOCKS),
    ("current_date", CLOCKS),
    ("current_timestamp", CLOCKS),
    ("date", "write d::date"),
    ("lcase", "write lower(s)"),
    ("ucase", "write upper(s)"),
    ("mid", "write substr(s, 2, 3)"),
    ("instr", "write strpos(s, t)"),
    ("locate", "write strpos(s, t)"),
    ("nvl", "write coalesce(a, b)"),
    ("decode", "write case a when x then v end"),
    ("if", "write case when c then a else b end"),
    ("iif", "write case when c then a else b end"),
    (
        "to_char",
        "write n::text; to_char(d, 'YYYY-MM-DD') is of a date or a timestamp",
    ),
    ("strftime", "write to_char(d, 'YYYY-MM-DD')"),
    ("date_format", "write to_char(d, 'YYYY-MM-DD')"),
    ("str_to_date", "write to_date(s, 'DD/MM/YYYY')"),
    ("strptime", "write to_date(s, 'DD/MM/YYYY')"),
    (
        "to_number",
        "write s::f64, or replace(s, ',', '')::decimal(12,2)",
    ),
    ("datediff", COUNTED),
    ("date_diff", COUNTED),
    ("timestampdiff", COUNTED),
    ("date_bin", "write date_trunc('hour', at)"),
    (
        "make_interval",
        "write interval '10 years', or n * interval '1 day'",
    ),
    (
        "make_timestamp",
        "write to_timestamp(s, 'YYYY-MM-DD HH24:MI:SS')",
    ),
    ("age", "write a - b"),
    ("date_add", "write d + 3, or add_months(d, 3)"),
    ("date_sub", "write d - 3, or add_months(d, -3)"),
    ("dateadd", "write d + 3, or add_months(d, 3)"),
    ("regexp_matches", "write regexp_like(s, 'a+')"),
    ("regexp_match", "write regexp_substr(s, 'a+')"),
    ("safe_cast", SAFE),
    ("format", FORMATTED),
    ("printf", FORMATTED),
    ("sprintf", FORMATTED),
    ("charindex", "write strpos(s, t)"),
    ("weekday", "write dow(d), from 0 for Sunday"),
    ("dayofweek", "write dow(d), from 0 for Sunday"),
    ("split", "write split_part(s, ',', 1)"),
    ("substring_index", "write split_part(s, ',', 1)"),
    ("title", "write initcap(s)"),
    ("unicode", "write ascii(s)"),
    ("hex", "write to_hex(n)"),
    ("insert", "write overlay(s, t, 2, 3)"),
    ("stuff", "write overlay(s, t, 2, 3)"),
    ("string_agg", AGGREGATES),
    ("pow", POWERS),
    ("power", POWERS),
    ("ln", LOGARITHMS),
    ("log", LOGARITHMS),
    ("exp", LOGARITHMS),
    ("sin", LOGARITHMS),
    ("cos", LOGARITHMS),
    ("tan", LOGARITHMS),
    ("asin", LOGARITHMS),
    ("acos", LOGARITHMS),
    ("atan", LOGARITHMS),
    ("atan2", LOGARITHMS),
    ("radians", "write x * 0.017453292519943295"),
    ("degrees", "write x * 57.29577951308232"),
    ("pi", "write 3.141592653589793"),
    ("months_between", COUNTED),
];

fn told_of(words: &[(&'static str, &'static str)], word: &[u8]) -> &'static str {
    for (name, told) in words {
        if word.eq_ignore_ascii_case(name.as_bytes()) {
            return *told;
        }
    }
    ""
}

fn is_word_byte(byte: u8) -> bool {
    byte.is_ascii_alphanumeric() || byte == b'_'
}

/// The last word of a text.
fn last_word(text: &[u8]) -> &[u8] {
    let mut last: &[u8] = b"";
    for word in text.split(|byte| !is_word_byte(*byte)) {
        if !word.is_empty() {
            last = word;
        }
    }
    last
}

/// The word that a text begins with.
fn word_at(text: &[u8]) -> &[u8] {
    text.split(|byte| !is_word_byte(*byte))
        .next()
        .unwrap_or(b"")
}

/// What a word is elsewhere before a text that begins so.
fn told_before(word: &[u8], behind: &[u8]) -> &'static str {
    let first = behind.first().copied();
    for (name, begins, told) in BEFORE {
        let fits = begins.is_empty() || first.is_some_and(|byte| begins.contains(&byte));
        if fits && word.eq_ignore_ascii_case(name.as_bytes()) {
            return told;
        }
    }
    ""
}

/// What a word means elsewhere behind `not`.
const BEHIND_NOT: [(&str, &str); 2] = [("regexp", "write a !~ b"), ("rlike", "write a !~ b")];

/// What the word at the start of a text means elsewhere behind a text that ends with `not`.
fn told_behind_not(before: &[u8], behind: &[u8]) -> &'static str {
    if last_word(before).eq_ignore_ascii_case(b"not") {
        told_of(&BEHIND_NOT, word_at(behind))
    } else {
        ""
    }
}

/// What `as` means elsewhere, at the start of a text, behind one that calls `safe_cast`.
fn told_in_cast(before: &[u8], behind: &[u8]) -> &'static str {
    let mut words = before.split(|byte| !is_word_byte(*byte));
    let is_cast = words.any(|word| word.eq_ignore_ascii_case(b"safe_cast"));
    if is_cast && word_at(behind).eq_ignore_ascii_case(b"as") {
        SAFE
    } else {
        ""
    }
}

/// What the signs at the end of the first text and at the start of the second mean elsewhere.
fn told_of_signs(before: &[u8], behind: &[u8]) -> &'static str {
    match (before, behind) {
        ([.., b'<', b'='], [b'>', ..]) => "write is not distinct from",
        (_, [b'&', b'&', ..]) | ([.., b'&'], [b'&', ..]) => "write and",
        (_, [b'!', b'<', ..]) => "write >=",
        (_, [b'!', b'>', ..]) => "write <=",
        (_, [b'!', ..]) => "is not or <> meant?",
        (_, [b'[', ..]) => ARRAYS,
        ([], [b'*', ..]) | ([.., b','], [b'*', ..]) | ([.., b',', b' '], [b'*', ..]) => COLUMNS,
        (_, [b'^', ..]) | ([.., b'*'], [b'*', ..]) => POWERS,
        ([.., b'='], [b'=', ..]) => "one = compares",
        ([.., b'='], [b'>', ..]) => "is >= meant? arguments have no names",
        ([.., b'='], [b'<', ..]) => "is <= meant?",
        _ => "",
    }
}

/// What is missing at that byte of a text, or what to write there; empty if it is not known.
pub(crate) fn hint_at(text: &str, byte: usize) -> &'static str {
    let (before, behind) = text.as_bytes().split_at(byte.min(text.len()));
    let signs = told_of_signs(before, behind);
    if !signs.is_empty() {
        return signs;
    }
    let here = told_of(&BEHIND, word_at(behind));
    if !here.is_empty() {
        return here;
    }
    let refused = told_behind_not(before, behind);
    if !refused.is_empty() {
        return refused;
    }
    let cast = told_in_cast(before, behind);
    if !cast.is_empty() {
        return cast;
    }
    told_before(last_word(before), behind)
}

/// Types that other languages have, or that lack their digits.
const TYPES: [(&str, &str); 6] = [
    (
        "time",
        "no times of day: hour(at) and minute(at) are numbers, to_char(at, 'HH24:MI') is a text",
    ),
    ("string", "write text"),
    ("datetime", "write timestamp"),
    (
        "numeric",
        "it needs its digits, 18 at most, as numeric(12,2)",
    ),
    (
        "decimal",
        "it needs its digits, 18 at most, as decimal(12,2)",
    ),
    ("number", "write f64, or numeric(12,2)"),
];

/// What is missing in the type that the word at that byte of a text names; empty if it is not known.
pub(crate) fn missing_type(text: &str, byte: usize) -> &'static str {
    let (_, behind) = text.as_bytes().split_at(byte.min(text.len()));
    told_of(&TYPES, word_at(behind))
}

/// What is meant where a function has other arguments than it takes: by `substring` the part that a
/// pattern matches; empty if it is not known.
pub(crate) fn meant_by_texts(name: &[u8], are_texts: bool) -> &'static str {
    let is_part = name.eq_ignore_ascii_case(b"substring") || name.eq_ignore_ascii_case(b"substr");
    if is_part && are_texts {
        "; regexp_substr(s, 'a+') is the part of s that matches"
    } else {
        ""
    }
}

/// What is missing where a function of that name is called; empty if it is not known.
pub(crate) fn missing_function(name: &[u8]) -> &'static str {
    told_of(&FUNCTIONS, name)
}

/// Words for the current time, which other languages write without brackets.
const CLOCK_WORDS: [&str; 5] = [
    "current_date",
    "current_time",
    "current_timestamp",
    "localtime",
    "localtimestamp",
];

/// Whether a word is the current time elsewhere.
pub(crate) fn is_clock(word: &[u8]) -> bool {
    CLOCK_WORDS
        .iter()
        .any(|name| word.eq_ignore_ascii_case(name.as_bytes()))
}
