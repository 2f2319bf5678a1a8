// CASE base WHEN literal THEN literal .. ELSE literal END, by a table of the WHENs: a row's base is searched once, and the row has the literal that stands
// at the index found. Literals are arrays of kinds and payloads, in the order of the rule.
ghost use Rattle.std.specs.Prelude.{◌≡◌, ℕ, ◌*◌, ◌<◌, ◌≤◌, slice_index};
ghost use Rattle.scalar.specs.Value.{meaning, value_of};
ghost use Rattle.case.specs.Frame.{Fillable, Filled};
ghost use Rattle.case.specs.LookUp.{LookedUp};
ghost use Rattle.case.specs.LookUpBooleans.{BooleansOf};
ghost use Rattle.case.specs.LookUpTables.{EachOnce, TableOf, Added, LiteralsRead, TableRead, MappedBy, key_index, base_index};

use crate::boolean_lookup_table::BooleanIndexMap;
use crate::rows::row_at;
use crate::slot::{get_slot, put_parts};
use crate::when_literal_index_map::WhenLiteralIndexMap;
use rule::literal::literal_value;
use rule::walk::field_end;
use scalar::text::place_text;
use scalar::types::DataType;
use scalar::value::{Value, kind, payload, value_of};

// The kind of a failure.
const FAILED: u8 = 7;

// Most branches of a CASE.
pub(crate) const BRANCHES_MOST: u8 = 32;

impl WhenLiteralIndexMap {
    // The index of the first key that equals a value, the ELSE index, or where the value failed the one behind it. A part of each loop over rows that asks it.
    #[inline(always)]
    fn map_to_when_index(&self, rule: &[u8], table: &[u8], v: Value) -> usize
        ensures { result ≡ base_index (key_index rule.now table.now self.now.kinds self.now.keys self.now.indices self.now.size self.now.else_index) self.now.else_index (meaning rule.now table.now v) }
    {
        match v {
            Value::Null => self.else_index,
            Value::RuleText(start, length) => {
                self.find_text(rule, table, place_text(rule, start, length))
            },
            Value::TableText(start, length) => {
                self.find_text(rule, table, place_text(table, start, length))
            },
            Value::Failed => self.else_index + 1,
            _ => self.find_number(kind(v), payload(v)),
        }
    }

    // One WHEN more, of a kind and a payload: a null WHEN is dropped, and of equal keys the first is kept.
    fn add(&mut self, rule: &[u8], table: &[u8], code: u8, key: u64, index: u16)
        requires { (self.old.size < 32) × (index < self.old.else_index) × EachOnce rule.now table.now self.old.kinds self.old.keys self.old.size }
        ensures added { Added rule.now table.now (value_of code key) index self.old.else_index self.old.kinds self.old.keys self.old.indices self.old.size self.new.kinds self.new.keys self.new.indices self.new.size }
        ensures else_index { self.new.else_index ≡ self.old.else_index }
    {
        let v = value_of(code, key);
        if kind(v) == 0 {
            return;
        }
        if self.map_to_when_index(rule, table, v) != self.else_index {
            return;
        }
        let size = self.size;
        self.kinds[size] = kind(v);
        self.keys[size] = payload(v);
        self.indices[size] = index;
        self.size = size + 1;
    }
}

// The literals of a CASE with a base: WHEN i at 2 * i, its THEN behind it, ELSE behind the last THEN, and behind ELSE a failure.
// Filled where they stand, never copied.
#[derive(Drop)]
pub(crate) struct Literals {
    pub(crate) kinds: [u8; 66],
    pub(crate) payloads: [u64; 66],
}

impl Literals {
    // No literal yet.
    #[inline(always)]
    fn none() -> Literals
        ensures { (i : ℕ) → slice_index result.kinds i ≡ 0 }
    {
        Literals {
            kinds: [0; 66],
            payloads: [0; 66],
        }
    }

    // The literals at a place, at most so many, and behind them a failure.
    fn read(&mut self, rule: &[u8], at: usize, end: usize, most: usize)
        requires few { most < 66 }
        requires empty { (i : ℕ) → slice_index self.old.kinds i ≡ 0 }
        ensures { LiteralsRead rule.now at end most self.new.kinds self.new.payloads }
    {
        self.kinds[most] = FAILED;
        let mut place = at;
        for i in 0..most {
            if end <= place {
                return;
            }
            let next = field_end(rule, place);
            let v = literal_value(rule, place, next);
            self.kinds[i] = kind(v);
            self.payloads[i] = payload(v);
            place = next;
        }
    }

    // The keys of so many WHENs.
    fn whens(&self, rule: &[u8], table: &[u8], count: usize, map: &mut WhenLiteralIndexMap)
        requires few { count ≤ 32 }
        requires none { (map.old.size ≡ 0) × (map.old.else_index ≡ 2 * count) }
        ensures whens { TableOf rule.now table.now self.now.kinds self.now.payloads count (2 * count) map.new.kinds map.new.keys map.new.indices map.new.size }
        ensures else_index { map.new.else_index ≡ 2 * count }
    {
        for when in 0..count {
            let place = 2 * when;
            let index = (place + 1) as u16;
            map.add(rule, table, self.kinds[place], self.payloads[place], index);
        }
    }
}

// The literals of a CASE with a base, and the keys of its WHENs. Filled where they stand, never copied.
#[derive(Drop)]
pub(crate) struct LiteralLookupTable {
    pub(crate) literals: Literals,
    pub(crate) whens: WhenLiteralIndexMap,
}

impl LiteralLookupTable {
    // Room for so many WHENs: no literal and no key yet.
    #[inline(always)]
    pub(crate) fn none(count: usize) -> LiteralLookupTable
        requires { count ≤ 32 }
        ensures empty { (i : ℕ) → slice_index result.literals.kinds i ≡ 0 }
        ensures none { (result.whens.size ≡ 0) × (result.whens.else_index ≡ 2 * count) }
    {
        LiteralLookupTable {
            literals: Literals::none(),
            whens: WhenLiteralIndexMap::new(2 * count),
        }
    }

    // The literals at a place, and the keys of so many WHENs among them.
    pub(crate) fn read(&mut self, rule: &[u8], at: usize, end: usize, table: &[u8], count: usize)
        requires few { count ≤ 32 }
        requires empty { (i : ℕ) → slice_index self.old.literals.kinds i ≡ 0 }
        requires none { (self.old.whens.size ≡ 0) × (self.old.whens.else_index ≡ 2 * count) }
        ensures read { TableRead rule.now at end table.now count self.new.literals.kinds self.new.literals.payloads self.new.whens.kinds self.new.whens.keys self.new.whens.indices self.new.whens.size }
        ensures else_index { self.new.whens.else_index ≡ 2 * count }
    {
        self.literals.read(rule, at, end, 2 * count + 1);
        self.literals.whens(rule, table, count, &mut self.whens);
    }

    // The same index, of a Boolean by the table of Boolean keys.
    fn base_index(&self, rule: &[u8], table: &[u8], booleans: BooleanIndexMap, v: Value) -> usize
        requires { BooleansOf self.now.whens.kinds self.now.whens.keys self.now.whens.indices self.now.whens.size self.now.whens.else_index booleans }
        ensures is { result ≡ base_index (key_index rule.now table.now self.now.whens.kinds self.now.whens.keys self.now.whens.indices self.now.whens.size self.now.whens.else_index) self.now.whens.else_index (meaning rule.now table.now v) }
        ensures below { result < 66 }
    {
        match v {
            Value::Boolean(b) => booleans.index(b),
            _ => self.whens.map_to_when_index(rule, table, v),
        }
    }

    // The literal of each listed row's base, in the row's slot.
    fn map_rows(
        &self,
        rule: &[u8],
        table: &[u8],
        booleans: BooleanIndexMap,
        work: &mut [u8],
        n: usize,
    )
        requires booleans { BooleansOf self.now.whens.kinds self.now.whens.keys self.now.whens.indices self.now.whens.size self.now.whens.else_index booleans }
        requires fillable { Fillable work.old n }
        ensures { Filled (MappedBy rule.now table.now self.now.literals.kinds self.now.literals.payloads (key_index rule.now table.now self.now.whens.kinds self.now.whens.keys self.now.whens.indices self.now.whens.size self.now.whens.else_index) self.now.whens.else_index work.old) work.old n work.new }
    {
        for i in 0..n {
            let r = row_at(work, 0, i);
            let v = get_slot(work, r);
            let j = self.base_index(rule, table, booleans, v);
            put_parts(work, r, self.literals.kinds[j], self.literals.payloads[j]);
        }
    }
}

// The outcome of each listed row whose base is in its slot, in the slot: a base that failed fails, a null base has ELSE, any other the THEN of the first
// WHEN that equals it, else ELSE; without ELSE null.
pub(crate) fn look_up(
    rule: &[u8],
    at: usize,
    end: usize,
    count: u8,
    to: DataType,
    table: &[u8],
    work: &mut [u8],
    n: usize,
)
    requires { Fillable work.old n }
    ensures { Filled (LookedUp rule.now at end count to table.now work.old) work.old n work.new }
{
    if BRANCHES_MOST < count {
        return;
    }
    let mut lookup = LiteralLookupTable::none(count as usize);
    lookup.read(rule, at, end, table, count as usize);
    let booleans = BooleanIndexMap::new(&lookup.whens);
    lookup.map_rows(rule, table, booleans, work, n);
}
