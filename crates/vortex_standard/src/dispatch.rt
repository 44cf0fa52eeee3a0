//! What is run for each function.

/// Runs the first expression for a function whose results are cells, the second for one that makes
/// texts, and the third, which else is the first, for one that keeps a pattern from row to row.
macro_rules! with_row {
    ($function:expr, $f:ident => $rows:expr, $texts:expr) => {
        with_row!($function, $f => $rows, $texts, $rows)
    };
    ($function:expr, $f:ident => $rows:expr, $texts:expr, $patterns:expr) => {
        match $function {
            Standard::Coalesce => {
                let $f = &vortex_sql_choices::coalesce::Coalesce;
                $rows
            }
            Standard::NullIf => {
                let $f = &vortex_sql_choices::nullif::NullIf;
                $rows
            }
            Standard::Case => {
                let $f = &vortex_sql_choices::case::Case;
                $rows
            }
            Standard::InList => {
                let $f = &vortex_sql_choices::in_list::InList;
                $rows
            }
            Standard::IsDistinct => {
                let $f = &vortex_sql_choices::distinct::IsDistinct;
                $rows
            }
            Standard::Remainder => {
                let $f = &vortex_sql_numbers::remainder::Remainder;
                $rows
            }
            Standard::Sign => {
                let $f = &vortex_sql_numbers::sign::Sign;
                $rows
            }
            Standard::Abs => {
                let $f = &vortex_sql_numbers::abs::Abs;
                $rows
            }
            Standard::BitNot => {
                let $f = &vortex_sql_numbers::bits::BitNot;
                $rows
            }
            Standard::IntToTruth => {
                let $f = &vortex_sql_numbers::truth_casts::IntToTruth;
                $rows
            }
            Standard::TruthToText => {
                let $f = &vortex_sql_numbers::truth_casts::TruthToText;
                $rows
            }
            Standard::StartsWith => {
                let $f = &vortex_sql_texts::texts::StartsWith;
                $rows
            }
            Standard::Substr => {
                let $f = &vortex_sql_texts::parts::Substr;
                $rows
            }
            Standard::StrPos => {
                let $f = &vortex_sql_texts::places::StrPos;
                $rows
            }
            Standard::TextToTruth => {
                let $f = &vortex_sql_texts::text_casts::TextToTruth;
                $rows
            }
            Standard::Concat => {
                let $f = &vortex_sql_texts::letters::Concat;
                $texts
            }
            Standard::IntToText => {
                let $f = &vortex_sql_texts::letters::IntToText;
                $texts
            }
            Standard::SplitPart => {
                let $f = &vortex_sql_texts::fields::SplitPart;
                $rows
            }
            Standard::Replace => {
                let $f = &vortex_sql_texts::replaced::Replace;
                $texts
            }
            Standard::Repeat => {
                let $f = &vortex_sql_texts::repeats::Repeat;
                $texts
            }
            Standard::Reverse => {
                let $f = &vortex_sql_texts::repeats::Reverse;
                $texts
            }
            Standard::ConcatAll => {
                let $f = &vortex_sql_texts::concats::ConcatAll;
                $texts
            }
            Standard::Initcap => {
                let $f = &vortex_sql_pads::capitals::Initcap;
                $texts
            }
            Standard::ConcatWs => {
                let $f = &vortex_sql_pads::joins::ConcatWs;
                $texts
            }
            Standard::Ascii => {
                let $f = &vortex_sql_characters::codes::Ascii;
                $rows
            }
            Standard::Chr => {
                let $f = &vortex_sql_characters::codes::Chr;
                $texts
            }
            Standard::ToHex => {
                let $f = &vortex_sql_characters::hexadecimal::ToHex;
                $texts
            }
            Standard::BitLength => {
                let $f = &vortex_sql_characters::sizes::BitLength;
                $rows
            }
            Standard::Translate => {
                let $f = &vortex_sql_characters::translations::Translate;
                $texts
            }
            Standard::Overlay => {
                let $f = &vortex_sql_characters::overlays::Overlay;
                $texts
            }
            Standard::Space => {
                let $f = &vortex_sql_characters::blanks::Space;
                $texts
            }
            Standard::TryTextToTruth => {
                let $f = &Try { function: &TextToTruth };
                $rows
            }
            Standard::TryTextToInt(cast) => {
                let $f = &Try { function: cast };
                $rows
            }
            Standard::TryCast(cast) => {
                let $f = &Try { function: cast };
                $rows
            }
            Standard::FloatNegate => {
                let $f = &vortex_sql_floats::negation::FloatNegate;
                $rows
            }
            Standard::IntToFloat => {
                let $f = &vortex_sql_floats::conversions::IntToFloat;
                $rows
            }
            Standard::WidenFloat => {
                let $f = &vortex_sql_floats::conversions::WidenFloat;
                $rows
            }
            Standard::DecimalToFloat(scale) => {
                let $f = &DecimalToFloat { scale: scale.number() };
                $rows
            }
            Standard::DateToTimestamp => {
                let $f = &vortex_sql_dates::casts::DateToTimestamp;
                $rows
            }
            Standard::TimestampToDate => {
                let $f = &vortex_sql_dates::casts::TimestampToDate;
                $rows
            }
            Standard::MakeDate => {
                let $f = &vortex_sql_dates::made::MakeDate;
                $rows
            }
            Standard::DateAddMonths => {
                let $f = &vortex_sql_dates::months::DateAddMonths;
                $rows
            }
            Standard::TimestampAddMonths => {
                let $f = &vortex_sql_dates::months::TimestampAddMonths;
                $rows
            }
            Standard::DateToChar => {
                let $f = &vortex_sql_date_formats::to_texts::DateToChar;
                $texts
            }
            Standard::TimestampToChar => {
                let $f = &vortex_sql_date_formats::to_texts::TimestampToChar;
                $texts
            }
            Standard::TextToDateBy => {
                let $f = &TextToDateBy;
                $rows
            }
            Standard::TextToTimestampBy => {
                let $f = &TextToTimestampBy;
                $rows
            }
            Standard::TryTextToDateBy => {
                let $f = &Try { function: &TextToDateBy };
                $rows
            }
            Standard::TryTextToTimestampBy => {
                let $f = &Try { function: &TextToTimestampBy };
                $rows
            }
            Standard::TextToDecimal => {
                let $f = &TextToDecimal;
                $rows
            }
            Standard::TryTextToDecimal => {
                let $f = &Try { function: &TextToDecimal };
                $rows
            }
            Standard::DecimalToText => {
                let $f = &vortex_sql_kind_texts::to_texts::DecimalToText;
                $texts
            }
            Standard::DecimalScaled => {
                let $f = &DecimalScaled;
                $rows
            }
            Standard::TryDecimalScaled => {
                let $f = &Try { function: &DecimalScaled };
                $rows
            }
            Standard::FloatToDecimal => {
                let $f = &FloatToDecimal;
                $rows
            }
            Standard::TryFloatToDecimal => {
                let $f = &Try { function: &FloatToDecimal };
                $rows
            }
            Standard::TryFloatToInt(cast) => {
                let $f = &Try { function: cast };
                $rows
            }
            Standard::TryTextToKind(cast) => {
                let $f = &Try { function: cast };
                $rows
            }
            Standard::Extreme($f) => $rows,
            Standard::TruthTest($f) => $rows,
            Standard::BitOperator($f) => $rows,
            Standard::Shift($f) => $rows,
            Standard::Cast($f) => $rows,
            Standard::Widen($f) => $rows,
            Standard::TruthToInt($f) => $rows,
            Standard::Measure($f) => $rows,
            Standard::Side($f) => $rows,
            Standard::Trim($f) => $rows,
            Standard::TextToInt($f) => $rows,
            Standard::Letters($f) => $texts,
            Standard::Pad($f) => $texts,
            Standard::FloatOperator($f) => $rows,
            Standard::FloatToInt($f) => $rows,
            Standard::FloatFunction($f) => $rows,
            Standard::FloatPlaces($f) => $rows,
            Standard::DatePart($f) => $rows,
            Standard::TimestampPart($f) => $rows,
            Standard::DateTrunc($f) => $rows,
            Standard::TimestampTrunc($f) => $rows,
            Standard::TextToKind($f) => $rows,
            Standard::KindToText($f) => $texts,
            Standard::FloatToText($f) => $texts,
            Standard::DecimalRound($f) => $rows,
            Standard::PatternFunction($f) => $patterns,
            Standard::RegexpReplace => {
                let $f = &vortex_sql_patterns::replace::RegexpReplace;
                $patterns
            }
            Standard::RegexpExtract => {
                let $f = &vortex_sql_patterns::extract::RegexpExtract;
                $patterns
            }
        }
    };
}

pub(crate) use with_row;
