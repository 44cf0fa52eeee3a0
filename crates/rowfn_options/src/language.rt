//! The language on one page, for `--help`.

/// What `--help` prints below the options: the language, and what the status means.
pub(crate) const AFTER_HELP: &str = "Rows are CSV. EXPRESSION is one answer or more:
  price * stock as worth, price      answers, each with a name if it has one
  price, \"unit price\"                columns; in double quotes any name
  7  -7  7::u8  'it''s'  true  null  literals; null::utf8? is a null of a type
  + - * / %  -a                      numbers; of two types in the wider one; 7 / 2 is 3, as whole
                                     numbers are cut off toward zero: write a::f64 / b for 3.5
  a & b, a | b, a # b, ~a, a << n    operations on bits; a >> n
  s || t                             one text after the other
  = <> != < <= > >=                  two values of one type; texts by their bytes
  a between x and y                  both ends count; not between; between symmetric
  a like 'b%', a ilike 'B_'          not like, not ilike; like p escape '!'
  s ~ 'a+', s ~* 'a+'                a regular expression matches, by ~* in any case; not: !~ !~*
  a in (x, y), a is null, a is true  not in, is not; a is distinct from b
  and or not                         three-valued, as in SQL
  case when a > 0 then x else y end  the value of the first condition that is true
  coalesce(a, 0), substr(s, 1, 3)    and nullif if greatest least mod abs sign length octet_length
                                     lower upper initcap left right lpad rpad btrim ltrim rtrim
                                     strpos starts_with replace split_part repeat reverse concat
                                     concat_ws ascii chr translate overlay to_hex space
                                     bit_length regexp_like regexp_substr regexp_instr
                                     regexp_count regexp_replace(s, 'a+', 'b', 'g')
                                     regexp_extract(s, '(a+)(b+)', 2) substring(s from 'a+')
  round(x, 2), sqrt(x)               numbers, halves away from zero; floor ceil trunc abs sign;
                                     n::f64 is a float, x::decimal(12,2) has two places always
  day + 30, at + interval '3 days'   dates and timestamps: year quarter month week day dow doy hour
                                     minute second epoch date_trunc make_date add_months(day, 1)
                                     extract(year from at) dayname monthname
                                     to_char(day, 'FMDay DD Mon YYYY') to_date(s, 'DD/MM/YYYY')
                                     to_timestamp(s, 'DD/MM/YYYY HH24:MI')
  cast(a as int), a::int             s::date, s::f64, n::text, x::decimal(12,2); try_cast gives
                                     null where a cast fails
Types are bool, i8 to i64, u8 to u64, f32, f64, decimal(12,2), date, timestamp and utf8; a ? after
the type's word allows null: f64?, decimal?(12,2).
Next to floats and decimals numbers may be 12.5 or 1e-3; a text next to a date or timestamp is one.

Columns that --columns does not declare take their types from the first rows. --columns also takes a
column by its place, from 1, and gives it a name: '3 as category utf8'. Without a header columns are
called c1, c2, .. by their places.

Status: 1 a call faults in a row, or rows were left out, 2 input that does not fit, 3 reading,
writing or memory, 4 a wrong expression, 64 wrong options.";
