// Worked examples of the operations on values. Each line has the example, the kind of the result and its payload in hex:
// kinds are 0 null, 1 Boolean, 2 Int32, 3 Int64, 4 Float64, 5 text in the rule, 6 text in the table, 7 failed.
#![tactic(auto)]

use scalar::cast::cast;
use scalar::compare::{equal, less};
use scalar::is_not_null::is_not_null;
use scalar::negative::negative;
use scalar::not::not_value;
use scalar::try_cast::try_cast;
use scalar::types::DataType;
use scalar::value::{Value, float_value, kind, payload};
use std::io;

fn show(rt: &impl Print, label: &str, v: Value) -> io::Result<()> {
    let k = kind(v);
    println!(rt; "{label}: {k} {:016x}", payload(v))
}

fn nots_1(rt: &impl Print) -> io::Result<()> {
    show(rt, "NOT null", not_value(Value::Null))?;
    show(rt, "NOT true", not_value(Value::Boolean(true)))?;
    show(rt, "NOT false", not_value(Value::Boolean(false)))?;
    show(rt, "NOT failed", not_value(Value::Failed))
}

fn nots_2(rt: &impl Print) -> io::Result<()> {
    show(rt, "null IS NOT NULL", is_not_null(Value::Null))?;
    show(rt, "0.0 IS NOT NULL", is_not_null(float_value(0)))?;
    show(rt, "failed IS NOT NULL", is_not_null(Value::Failed))
}

fn negatives_1(rt: &impl Print) -> io::Result<()> {
    show(rt, "- 1:Int32", negative(Value::Int32(1)))?;
    show(
        rt,
        "- -2147483648:Int32",
        negative(Value::Int32(0x8000_0000)),
    )?;
    show(
        rt,
        "- 2147483647:Int32",
        negative(Value::Int32(0x7fff_ffff)),
    )?;
    show(
        rt,
        "- lowest Int64",
        negative(Value::Int64(0x8000_0000_0000_0000)),
    )
}

fn negatives_2(rt: &impl Print) -> io::Result<()> {
    show(rt, "- 0:Int64", negative(Value::Int64(0)))?;
    show(rt, "- 0.0", negative(float_value(0)))?;
    show(rt, "- -0.0", negative(float_value(0x8000_0000_0000_0000)))?;
    show(
        rt,
        "- infinity",
        negative(float_value(0x7ff0_0000_0000_0000)),
    )
}

fn negatives_3(rt: &impl Print) -> io::Result<()> {
    show(rt, "- NaN", negative(float_value(0x7ff8_0000_0000_0001)))?;
    show(rt, "- -NaN", negative(float_value(0xfff8_0000_0000_0001)))?;
    show(rt, "- null", negative(Value::Null))
}

fn casts_1(rt: &impl Print) -> io::Result<()> {
    show(
        rt,
        "2147483647:Int64 to Int32",
        cast(DataType::Int32, Value::Int64(0x7fff_ffff)),
    )?;
    show(
        rt,
        "2147483648:Int64 to Int32",
        cast(DataType::Int32, Value::Int64(0x8000_0000)),
    )?;
    show(
        rt,
        "-2147483648:Int64 to Int32",
        cast(DataType::Int32, Value::Int64(0xffff_ffff_8000_0000)),
    )?;
    show(
        rt,
        "-2147483649:Int64 to Int32",
        cast(DataType::Int32, Value::Int64(0xffff_ffff_7fff_ffff)),
    )
}

fn casts_2(rt: &impl Print) -> io::Result<()> {
    show(
        rt,
        "-1:Int32 to Int64",
        cast(DataType::Int64, Value::Int32(0xffff_ffff)),
    )?;
    show(
        rt,
        "-1:Int32 to Float64",
        cast(DataType::Float64, Value::Int32(0xffff_ffff)),
    )?;
    show(
        rt,
        "-2147483648:Int32 to Float64",
        cast(DataType::Float64, Value::Int32(0x8000_0000)),
    )?;
    show(
        rt,
        "7:Int32 to Boolean",
        cast(DataType::Boolean, Value::Int32(7)),
    )
}

fn casts_3(rt: &impl Print) -> io::Result<()> {
    show(
        rt,
        "0:Int64 to Boolean",
        cast(DataType::Boolean, Value::Int64(0)),
    )?;
    show(
        rt,
        "true to Int64",
        cast(DataType::Int64, Value::Boolean(true)),
    )?;
    show(
        rt,
        "NaN to Float64",
        cast(DataType::Float64, float_value(0xfff8_0000_0000_0001)),
    )?;
    show(rt, "null to Int32", cast(DataType::Int32, Value::Null))
}

fn casts_4(rt: &impl Print) -> io::Result<()> {
    show(
        rt,
        "try 2147483648:Int64 to Int32",
        try_cast(DataType::Int32, Value::Int64(0x8000_0000)),
    )?;
    show(
        rt,
        "try 5:Int64 to Int32",
        try_cast(DataType::Int32, Value::Int64(5)),
    )?;
    show(
        rt,
        "try failed to Int32",
        try_cast(DataType::Int32, Value::Failed),
    )
}

// A float, by its bits, to Int32 and to Int64.
fn whole_parts(rt: &impl Print, label: &str, bits: u64) -> io::Result<()> {
    rt.print(label)?;
    show(rt, " to Int32", cast(DataType::Int32, float_value(bits)))?;
    rt.print(label)?;
    show(rt, " to Int64", cast(DataType::Int64, float_value(bits)))
}

// An Int64, by its bits, to Float64.
fn nearest(rt: &impl Print, label: &str, bits: u64) -> io::Result<()> {
    rt.print(label)?;
    show(
        rt,
        " to Float64",
        cast(DataType::Float64, Value::Int64(bits)),
    )
}

fn casts_5(rt: &impl Print) -> io::Result<()> {
    whole_parts(rt, "0.0", 0)?;
    whole_parts(rt, "-0.0", 0x8000_0000_0000_0000)?;
    whole_parts(rt, "0.9", 0x3fec_cccc_cccc_cccd)?;
    whole_parts(rt, "-0.9", 0xbfec_cccc_cccc_cccd)?;
    whole_parts(rt, "-2.9", 0xc007_3333_3333_3333)
}

fn casts_6(rt: &impl Print) -> io::Result<()> {
    whole_parts(rt, "2147483647.9", 0x41df_ffff_fff9_999a)?;
    whole_parts(rt, "2147483648.0", 0x41e0_0000_0000_0000)?;
    whole_parts(rt, "-2147483648.9", 0xc1e0_0000_001c_cccd)?;
    whole_parts(rt, "-2147483649.0", 0xc1e0_0000_0020_0000)
}

fn casts_7(rt: &impl Print) -> io::Result<()> {
    whole_parts(rt, "the float below 2^63", 0x43df_ffff_ffff_ffff)?;
    whole_parts(rt, "2^63", 0x43e0_0000_0000_0000)?;
    whole_parts(rt, "-2^63", 0xc3e0_0000_0000_0000)?;
    whole_parts(rt, "the float below -2^63", 0xc3e0_0000_0000_0001)
}

fn casts_8(rt: &impl Print) -> io::Result<()> {
    whole_parts(rt, "least subnormal", 1)?;
    whole_parts(rt, "largest subnormal", 0x000f_ffff_ffff_ffff)?;
    whole_parts(rt, "-(largest subnormal)", 0x800f_ffff_ffff_ffff)
}

fn casts_9(rt: &impl Print) -> io::Result<()> {
    whole_parts(rt, "infinity", 0x7ff0_0000_0000_0000)?;
    whole_parts(rt, "-infinity", 0xfff0_0000_0000_0000)?;
    whole_parts(rt, "NaN", 0x7ff8_0000_0000_0001)?;
    whole_parts(rt, "-NaN", 0xfff8_0000_0000_0001)
}

fn casts_10(rt: &impl Print) -> io::Result<()> {
    nearest(rt, "2^53 + 1", 0x0020_0000_0000_0001)?;
    nearest(rt, "-(2^53 + 3)", 0xffdf_ffff_ffff_fffd)?;
    nearest(rt, "2^54 + 2", 0x0040_0000_0000_0002)?;
    nearest(rt, "2^63 - 1", 0x7fff_ffff_ffff_ffff)?;
    nearest(rt, "-2^63", 0x8000_0000_0000_0000)
}

fn casts_11(rt: &impl Print) -> io::Result<()> {
    show(
        rt,
        "try 2147483648.0 to Int32",
        try_cast(DataType::Int32, float_value(0x41e0_0000_0000_0000)),
    )?;
    show(
        rt,
        "try NaN to Int64",
        try_cast(DataType::Int64, float_value(0x7ff8_0000_0000_0001)),
    )?;
    show(
        rt,
        "try 2147483647.9 to Int32",
        try_cast(DataType::Int32, float_value(0x41df_ffff_fff9_999a)),
    )
}

fn casts_12(rt: &impl Print) -> io::Result<()> {
    show(
        rt,
        "1.0 to Boolean",
        cast(DataType::Boolean, float_value(0x3ff0_0000_0000_0000)),
    )?;
    show(
        rt,
        "true to Float64",
        cast(DataType::Float64, Value::Boolean(true)),
    )?;
    show(
        rt,
        "1.0 to Utf8",
        cast(DataType::Utf8, float_value(0x3ff0_0000_0000_0000)),
    )?;
    show(
        rt,
        "text to Float64",
        cast(DataType::Float64, Value::RuleText(0, 4)),
    )
}

fn equals_1(rt: &impl Print) -> io::Result<()> {
    let none = b"";
    show(
        rt,
        "0.0 = -0.0",
        equal(
            none,
            none,
            float_value(0),
            float_value(0x8000_0000_0000_0000),
        ),
    )?;
    show(
        rt,
        "NaN = the same NaN",
        equal(
            none,
            none,
            float_value(0x7ff8_0000_0000_0001),
            float_value(0x7ff8_0000_0000_0001),
        ),
    )?;
    show(
        rt,
        "NaN = another NaN",
        equal(
            none,
            none,
            float_value(0x7ff8_0000_0000_0001),
            float_value(0x7ff8_0000_0000_0002),
        ),
    )?;
    show(
        rt,
        "null = null",
        equal(none, none, Value::Null, Value::Null),
    )
}

fn equals_2(rt: &impl Print) -> io::Result<()> {
    let none = b"";
    show(
        rt,
        "7 = null",
        equal(none, none, Value::Int32(7), Value::Null),
    )?;
    show(
        rt,
        "7 = 7",
        equal(none, none, Value::Int32(7), Value::Int32(7)),
    )?;
    show(
        rt,
        "7:Int32 = 7:Int64",
        equal(none, none, Value::Int32(7), Value::Int64(7)),
    )?;
    show(
        rt,
        "failed = null",
        equal(none, none, Value::Failed, Value::Null),
    )
}

fn lesses_1(rt: &impl Print) -> io::Result<()> {
    let none = b"";
    show(
        rt,
        "-0.0 < 0.0",
        less(
            none,
            none,
            float_value(0x8000_0000_0000_0000),
            float_value(0),
        ),
    )?;
    show(
        rt,
        "infinity < NaN",
        less(
            none,
            none,
            float_value(0x7ff0_0000_0000_0000),
            float_value(0x7ff8_0000_0000_0001),
        ),
    )?;
    show(
        rt,
        "-NaN < -infinity",
        less(
            none,
            none,
            float_value(0xfff8_0000_0000_0001),
            float_value(0xfff0_0000_0000_0000),
        ),
    )?;
    show(
        rt,
        "-1 < 1",
        less(none, none, Value::Int32(0xffff_ffff), Value::Int32(1)),
    )
}

fn lesses_2(rt: &impl Print) -> io::Result<()> {
    let none = b"";
    show(
        rt,
        "lowest < highest Int64",
        less(
            none,
            none,
            Value::Int64(0x8000_0000_0000_0000),
            Value::Int64(0x7fff_ffff_ffff_ffff),
        ),
    )?;
    show(
        rt,
        "1 < -1",
        less(
            none,
            none,
            Value::Int64(1),
            Value::Int64(0xffff_ffff_ffff_ffff),
        ),
    )?;
    show(
        rt,
        "false < true",
        less(none, none, Value::Boolean(false), Value::Boolean(true)),
    )?;
    show(
        rt,
        "true < true",
        less(none, none, Value::Boolean(true), Value::Boolean(true)),
    )
}

// The rule's bytes hold "boat", the table's "boats buoy".
fn texts_1(rt: &impl Print) -> io::Result<()> {
    let rule = b"boat";
    let table = b"boats buoy";
    show(
        rt,
        "boat = boat",
        equal(rule, table, Value::RuleText(0, 4), Value::TableText(0, 4)),
    )?;
    show(
        rt,
        "boat < boats",
        less(rule, table, Value::RuleText(0, 4), Value::TableText(0, 5)),
    )?;
    show(
        rt,
        "boats < boat",
        less(rule, table, Value::TableText(0, 5), Value::RuleText(0, 4)),
    )?;
    show(
        rt,
        "boat < buoy",
        less(rule, table, Value::RuleText(0, 4), Value::TableText(6, 4)),
    )
}

// The rule's bytes hold "boat", the table's "boats buoy".
fn texts_2(rt: &impl Print) -> io::Result<()> {
    let rule = b"boat";
    let table = b"boats buoy";
    show(
        rt,
        "empty < boat",
        less(rule, table, Value::RuleText(0, 0), Value::RuleText(0, 4)),
    )?;
    show(
        rt,
        "empty = empty",
        equal(rule, table, Value::RuleText(2, 0), Value::TableText(9, 0)),
    )?;
    show(
        rt,
        "past the end = empty",
        equal(rule, table, Value::RuleText(9, 4), Value::TableText(0, 0)),
    )
}

fn main(rt: HostRuntime) -> io::Result<()> {
    nots_1(&rt)?;
    nots_2(&rt)?;
    negatives_1(&rt)?;
    negatives_2(&rt)?;
    negatives_3(&rt)?;
    casts_1(&rt)?;
    casts_2(&rt)?;
    casts_3(&rt)?;
    casts_4(&rt)?;
    casts_5(&rt)?;
    casts_6(&rt)?;
    casts_7(&rt)?;
    casts_8(&rt)?;
    casts_9(&rt)?;
    casts_10(&rt)?;
    casts_11(&rt)?;
    casts_12(&rt)?;
    equals_1(&rt)?;
    equals_2(&rt)?;
    lesses_1(&rt)?;
    lesses_2(&rt)?;
    texts_1(&rt)?;
    texts_2(&rt)
}
