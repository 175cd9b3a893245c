//! The text of the model.
ghost use Rattle.std.specs.Prelude.{◌≡◌, ℕ, ◌≤◌, ◌<◌, ◌*◌, ◌+◌, ◌++◌, IfOk, OnOk, string_bytes};
ghost use Rattle.gms_gen.specs.Generator.{seed_after, demand, demand_lines, sum_below, total_demand, supply_lines, costs_from, transport_cost_lines, generated_model_text};

use crate::draws::Draws;
use std::alloc::{AllocError, Global};

/// The variables, the equations, the model and its solve.
const MODEL: &str = "\
positive variable x(p,m); variable z;
equations cost, supply(p), demand(m);
cost.. z =e= sum((p,m), c(p,m)*x(p,m));
supply(p).. sum(m, x(p,m)) =l= a(p);
demand(m).. sum(p, x(p,m)) =g= b(m);
model t /all/;
option iterlim = 100000, limrow = 0, limcol = 0;
solve t using lp minimizing z;
";

/// Draws the demand of each market, lists them, and answers their sum.
fn push_demands(
    alloc: Global,
    draws: &mut Draws,
    markets: u32,
    text: &mut String,
) -> Result<u64, AllocError>
    ensures text { (seed plants : ℕ) → draws.old ≡ seed_after seed 0 →
        OnOk result (string_bytes text.new ≡ string_bytes text.old ++ demand_lines seed plants markets) }
    ensures total { (seed plants : ℕ) → draws.old ≡ seed_after seed 0 → IfOk result (λ sum. sum ≡ total_demand seed plants markets) }
    ensures draws { (seed : ℕ) → draws.old ≡ seed_after seed 0 → OnOk result (draws.new ≡ seed_after seed markets) }
    ensures few { IfOk result (λ sum. sum ≤ 99 * markets) }
{
    let mut total = 0;
    for market in 0..markets {
        let demand = 10 + draws.draw(90);
        total += demand;
        let number = market + 1;
        let line = format!(in alloc; "m{number} {demand}\n")?;
        text.push_str(line.as_str())?;
    }
    Ok(total)
}

/// Draws the supply of each plant, by the total demand, and lists them.
fn push_supplies(
    alloc: Global,
    draws: &mut Draws,
    plants: u32,
    demand: u64,
    text: &mut String,
) -> Result<(), AllocError>
    requires { demand ≤ 99 * 4294967295 }
    ensures text { (seed markets : ℕ) → draws.old ≡ seed_after seed markets → demand ≡ total_demand seed plants markets →
        OnOk result (string_bytes text.new ≡ string_bytes text.old ++ supply_lines seed plants markets) }
    ensures draws { (seed markets : ℕ) → draws.old ≡ seed_after seed markets → OnOk result (draws.new ≡ seed_after seed (markets + plants)) }
{
    for plant in 0..plants {
        let supply = demand / u64::from(plants) + 1 + draws.draw(10);
        let number = plant + 1;
        let line = format!(in alloc; "p{number} {supply}\n")?;
        text.push_str(line.as_str())?;
    }
    Ok(())
}

/// Draws the costs of the routes from a plant to each market, and lists them.
fn push_costs_from(
    alloc: Global,
    draws: &mut Draws,
    plant: u32,
    markets: u32,
    text: &mut String,
) -> Result<(), AllocError>
    requires { plant < 4294967295 }
    ensures text { (seed plants : ℕ) → draws.old ≡ seed_after seed (markets + plants + plant * markets) →
        OnOk result (string_bytes text.new ≡ string_bytes text.old ++ costs_from seed plants markets plant) }
    ensures draws { (seed before : ℕ) → draws.old ≡ seed_after seed before → OnOk result (draws.new ≡ seed_after seed (before + markets)) }
{
    let plant = plant + 1;
    for market in 0..markets {
        let cost = 1 + draws.draw(50);
        let market = market + 1;
        let line = format!(in alloc; "p{plant}.m{market} {cost}\n")?;
        text.push_str(line.as_str())?;
    }
    Ok(())
}

/// Draws the costs of all routes, and lists them.
fn push_costs(
    alloc: Global,
    draws: &mut Draws,
    plants: u32,
    markets: u32,
    text: &mut String,
) -> Result<(), AllocError>
    ensures { (seed : ℕ) → draws.old ≡ seed_after seed (markets + plants) →
        OnOk result (string_bytes text.new ≡ string_bytes text.old ++ transport_cost_lines seed plants markets) }
{
    for plant in 0..plants {
        push_costs_from(alloc, draws, plant, markets, text)?;
    }
    Ok(())
}

/// The GAMS source of a transport model with `plants` plants and `markets` markets. It minimizes
/// the cost of the shipments, as in GAMS User's Guide, "A GAMS Tutorial by Richard E. Rosenthal".
/// Its data are pseudo-random numbers from `seed`.
///
/// The same arguments give the same text. The only error is out of memory.
pub fn generate(alloc: Global, seed: u64, plants: u32, markets: u32) -> Result<String, AllocError>
    ensures { IfOk result (λ text. string_bytes text ≡ generated_model_text seed plants markets) }
{
    let mut draws = Draws::new(seed);
    let mut text = format!(in alloc; "set p /p1*p{plants}/;\nset m /m1*m{markets}/;\n")?;
    text.push_str("parameter b(m) /\n")?;
    let demand = push_demands(alloc, &mut draws, markets, &mut text)?;
    text.push_str("/;\nparameter a(p) /\n")?;
    push_supplies(alloc, &mut draws, plants, demand, &mut text)?;
    text.push_str("/;\nparameter c(p,m) /\n")?;
    push_costs(alloc, &mut draws, plants, markets, &mut text)?;
    text.push_str("/;\n")?;
    text.push_str(MODEL)?;
    Ok(text)
}
