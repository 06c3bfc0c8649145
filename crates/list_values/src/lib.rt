// The values that the IDs of a list add to a midpoint (document 01, "Clock").
//
// For closing: `offset_values` and `rate_values`. Each takes any list, also one whose count is above its rows.
#![tactic(auto)]

ghost use Rattle.std.specs.Prelude.{◌≡◌, [], ◌++◌, ◌≤◌};
ghost use Rattle.base_types.specs.Microtick.{held};
ghost use Rattle.correction.specs.Terms.{most_ids, values_in};
ghost use Rattle.sync_list.specs.Lists.{listed};
ghost use Rattle.list_values.specs.Values.{before, offset_values, rate_values_by, in_array};

use base_types::SignedMicrotick;
use correction::Values;
use sync_list::SyncList;

// No values: nothing is laid in the array yet.
const NO_VALUES: Values = Values {
    numbers: [0; midpoint::MOST],
    count: 0,
};

// The offset value of each ID, and zeros behind them. (The second promise follows from the first, and is the one that a
// term cites. The same holds of the rate values.)
pub fn offset_values(list: SyncList) -> Values
    ensures value { result ≡ in_array (offset_values (listed list)) }
    ensures result_value { values_in result ≡ offset_values (listed list) }
{
    let rows = list.listed();
    let mut values = NO_VALUES;
    for row in rows {
        lay(&mut values, correction::offset_value(row.deviations()));
    }
    values
}

// The rate value of each ID of the odd list that has one by the even list. (Two short loops: one function that takes a closure would need the
// closure's own clauses in its contract.)
pub fn rate_values(odd: SyncList, even: SyncList) -> Values
    ensures value { result ≡ in_array (rate_values_by held (listed odd) (listed even)) }
    ensures result_value { values_in result ≡ rate_values_by held (listed odd) (listed even) }
{
    let rows = odd.listed();
    let mut values = NO_VALUES;
    for row in rows {
        let even_row = even.row_of(row.id);
        lay(
            &mut values,
            correction::rate_value(row.deviations(), even_row.deviations()),
        );
    }
    values
}

// Lays a value behind the others, where it is one.
fn lay(values: &mut Values, value: Option<SignedMicrotick>)
    requires room { values.old.count ≤ most_ids }
    requires zeros { values.old ≡ in_array (values_in values.old) }
    ensures { values.new ≡ in_array (values_in values.old ++ before value []) }
{
    if let Some(x) = value {
        values.numbers[values.count] = x.0;
        values.count += 1;
    }
}
