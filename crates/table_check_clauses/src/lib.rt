// Whether the clauses of a table are right, row by row.
#![tactic(auto)]

ghost use Rattle.std.specs.Prelude.{◌≡◌, ◌*◌, ◌≤◌, ◌<◌, length};
ghost use Rattle.table.specs.Layout.{clause_length};
ghost use Rattle.table.specs.Table.{code_ok, clause_ok, clauses_ok};
ghost use Rattle.table_check_clauses.specs.Check.{clause_rows, use_next, code_next, values_next, Coded, clause_step};

use signal::SCORE_LIMIT;
use table::{ClauseRow, WILD_CODE, clause_at};

// How many keys and values are used.
#[derive(Clone, Copy)]
struct Used {
    keys: usize,
    values: usize,
}

// Whether v is the code of the wildcard or of one of n values.
fn code_ok(n: usize, v: usize) -> bool
    ensures { result ≡ code_ok n v }
{
    v == WILD_CODE || (1..=n).contains(&v)
}

// Whether a clause is right, of so many keys and values.
#[tactic(auto, unfolding(text::specs::Conditions::all_of, table::specs::Table::clause_ok))]
fn clause_ok(c: ClauseRow, keys: usize, values: usize) -> bool
    ensures { result ≡ clause_ok keys values c }
{
    c.kind <= 2
        && (c.key as usize) < keys
        && code_ok(values, c.v1 as usize)
        && code_ok(values, c.v2 as usize)
        && code_ok(values, c.v3 as usize)
        && c.score as u64 <= SCORE_LIMIT
}

// A use of number u where `seen` numbers were used before.
#[tactic(auto, unfolding(crate::specs::Check::use_next))]
fn use_next(seen: usize, u: usize) -> Option<usize>
    requires { u < 65536 }
    ensures { result ≡ use_next seen u }
{
    if u <= seen {
        Some(seen.max(u + 1))
    } else {
        None
    }
}

// A use of a value by its code.
#[tactic(auto, unfolding(crate::specs::Check::code_next))]
fn code_next(seen: usize, v: usize) -> Option<usize>
    requires le_v { 1 ≤ v }
    requires v_bound { v < 65536 }
    ensures { result ≡ code_next seen v }
{
    if v == WILD_CODE {
        Some(seen)
    } else {
        use_next(seen, v - 1)
    }
}

// The values of a clause, where b were used before it.
#[tactic(auto, unfolding(crate::specs::Check::values_next))]
fn values_next(c: ClauseRow, b: usize) -> Option<usize>
    requires { Coded c }
    ensures { result ≡ values_next b c }
{
    let x = code_next(b, c.v1 as usize)?;
    let y = code_next(x, c.v2 as usize)?;
    code_next(y, c.v3 as usize)
}

// Checks a clause, and says what is used after it.
#[tactic(auto, using(crate::proofs::Clauses::clause_coded), unfolding(crate::specs::Check::clause_step))]
fn clause_step(c: ClauseRow, keys: usize, values: usize, used: Used) -> Option<Used>
    ensures { result ≡ clause_step keys values c used }
{
    if !clause_ok(c, keys, values) {
        return None;
    }
    let x = use_next(used.keys, c.key as usize)?;
    let y = values_next(c, used.values)?;
    Some(Used { keys: x, values: y })
}

// Whether n clauses are right, and use keys and values in order of first use, all of them.
pub fn clauses_ok(rows: &[u8], n: usize, keys: usize, values: usize) -> bool
    requires { clause_length * n ≤ length rows.now }
    ensures { result ≡ clauses_ok keys values (clause_rows n rows.now) }
{
    let mut used = Used { keys: 0, values: 0 };
    for i in 0..n {
        let Some(next) = clause_step(clause_at(rows, i), keys, values, used) else {
            return false;
        };
        used = next;
    }
    used.keys == keys && used.values == values
}
