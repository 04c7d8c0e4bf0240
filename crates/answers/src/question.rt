// Questions on one resource.
ghost use Rattle.std.specs.Prelude.{◌≡◌, ◌^◌, ◌<◌, sum};
ghost use Rattle.vocabulary.specs.Readings.{lines_of, own_of};
ghost use Rattle.verdicts.specs.Rules.{amount_conduct as amount_conduct_of};
ghost use Rattle.charges.specs.Findings.{finding as finding_of};
ghost use Rattle.charges.specs.Tables.{owns_of};
ghost use Rattle.answers.specs.Answers.{answer as answer_of};
ghost use Rattle.answers.specs.Assembling.{of_amounts, assembled as assembled_of};
ghost use Rattle.answers.specs.Shares.{Shared};

use crate::answer::Answer;
use crate::shares::Shares;
use charges::finding::Finding;
use charges::rules::Rules;
use verdicts::conduct::amount_conduct;
use vocabulary::amount::Amount;
use vocabulary::lines::Lines;
use vocabulary::product::Product;
use vocabulary::resource::Resource;
use vocabulary::verdict::Verdict;

// What is found of a product of resource i.
fn finding<R: Rules>(
    rules: &R,
    lines: &Lines,
    table: &[Resource; 32],
    shares: &Shares,
    product: Product,
    i: usize,
) -> Finding
    requires index { i < 32 }
    requires shared { Shared (R.meanings rules.now).quantities (lines_of lines.now) (owns_of table.now) shares.now }
    ensures value { result ≡ finding_of (R.meanings rules.now) (lines_of lines.now) (owns_of table.now) product i }
    ensures small { result.charge < 2 ^ 60 }
{
    let shares = &shares.by_product[product.number()];
    Finding::of(rules, lines, table, shares, product, i)
}

// The conduct of each amount, which rise by number.
fn amount_conducts<R: Rules>(rules: &R, lines: &Lines, resource: &Resource) -> [Verdict; 4]
    ensures { result ≡ of_amounts (amount_conduct_of (R.meanings rules.now).amounts (R.meanings rules.now).quantities (lines_of lines.now) (own_of resource.now)) }
{
    let places = rules.places();
    let amounts = &places.amounts;
    let quantities = &places.quantities;
    [
        amount_conduct(amounts, quantities, lines, resource, Amount::StartUp),
        amount_conduct(amounts, quantities, lines, resource, Amount::SpeedNoLoad),
        amount_conduct(amounts, quantities, lines, resource, Amount::RunTime),
        amount_conduct(amounts, quantities, lines, resource, Amount::RampRate),
    ]
}

// The answer that the findings of the products and the conduct of the amounts make up.
fn assembled(found: [Finding; 4], amounts: [Verdict; 4]) -> Answer
    ensures { result ≡ assembled_of found amounts }
{
    let [energy, spinning, non_spinning, thirty_minute] = found;
    let e = energy.verdicts;
    let s = spinning.verdicts;
    let n = non_spinning.verdicts;
    let t = thirty_minute.verdicts;
    let [start_up, speed_no_load, run_time, ramp_rate] = amounts;
    Answer {
        conduct: [
            e.conduct,
            s.conduct,
            n.conduct,
            t.conduct,
            start_up,
            speed_no_load,
            run_time,
            ramp_rate,
        ],
        impact: [e.impact, s.impact, n.impact, t.impact],
        resource: [e.resource, s.resource, n.resource, t.resource],
        entity: [e.entity, s.entity, n.entity, t.entity],
        quantity_impact: [
            e.quantity_impact,
            s.quantity_impact,
            n.quantity_impact,
            t.quantity_impact,
        ],
        charges: [
            energy.charge,
            spinning.charge,
            non_spinning.charge,
            thirty_minute.charge,
        ],
    }
}

// What is found of resource i, from the shares of the table.
pub fn answer<R: Rules>(
    rules: &R,
    lines: &Lines,
    table: &[Resource; 32],
    shares: &Shares,
    i: usize,
) -> Answer
    requires index { i < 32 }
    requires shared { Shared (R.meanings rules.now).quantities (lines_of lines.now) (owns_of table.now) shares.now }
    ensures value { result ≡ answer_of (R.meanings rules.now) (lines_of lines.now) (owns_of table.now) i }
    ensures small { sum result.charges < 2 ^ 64 }
{
    let found = [
        finding(rules, lines, table, shares, Product::Energy, i),
        finding(rules, lines, table, shares, Product::Spinning, i),
        finding(rules, lines, table, shares, Product::NonSpinning, i),
        finding(rules, lines, table, shares, Product::ThirtyMinute, i),
    ];
    assembled(found, amount_conducts(rules, lines, &table[i]))
}

// What is found of resource i of a table.
pub fn question<R: Rules>(rules: &R, lines: &Lines, table: &[Resource; 32], i: usize) -> Answer
    requires { i < 32 }
    ensures { result ≡ answer_of (R.meanings rules.now) (lines_of lines.now) (owns_of table.now) i }
{
    let shares = Shares::of(&rules.places().quantities, lines, table);
    answer(rules, lines, table, &shares, i)
}
