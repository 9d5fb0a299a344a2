//! How many tokens a binding puts at a place, and whether a capacity of 1 has room for them.
ghost use Rattle.std.specs.Prelude.{◌≡◌, [], All, IfOk, length};
ghost use Rattle.rn_model.specs.ExpressionLaws.{operands_in};
ghost use Rattle.rn_model.specs.Systems.{transition_at};

use rn_arcs::{demands_of, fits};
use rn_items::Items;
use rn_model::{ArcKind, Binding, Expr, Net, NetArc, Node, Place, System, Transition};
use rn_table::Table;
use rn_value::{InstRef, Kind, NoMemory, Str, tuple_value};
use std::alloc::Global;
use std::test::Fail;

/// The inscription of an arc: one token, a list of one, or a variable that an action sets.
#[derive(Clone, Copy)]
enum Inscription {
    One,
    Listed,
    Awaited,
}

fn named(alloc: Global, name: &str) -> Result<Str, NoMemory> {
    Ok(Str::from_string(String::from_str(alloc, name)?))
}

fn expr_of(alloc: Global, inscription: Inscription) -> Result<Expr, NoMemory>
    ensures { IfOk result (λ e. operands_in e ≡ []) }
{
    match inscription {
        Inscription::One => Ok(Expr::Tuple(Items::new(alloc))),
        Inscription::Listed => {
            let mut parts = Items::new(alloc);
            parts.push(Expr::Tuple(Items::new(alloc)))?;
            Ok(Expr::List(parts))
        }
        Inscription::Awaited => Ok(Expr::Var(0)),
    }
}

// The place of the net, with so many tokens `[]` at the start.
fn place_with(alloc: Global, tokens: usize) -> Result<Place, NoMemory> {
    let mut initial = Items::new(alloc);
    for _ in 0..tokens {
        initial.push(tuple_value(alloc, Items::new(alloc))?)?;
    }
    Ok(Place {
        name: named(alloc, "p")?,
        kind: Kind::Tuple(Items::new(alloc)),
        initial,
        max: Some(1),
    })
}

// A transition with these arcs at place 0, whose variable 0 an action sets.
fn transition_with(alloc: Global, arcs: &[(ArcKind, Inscription)]) -> Result<Transition, NoMemory>
    ensures { IfOk result (λ t. All (λ a. operands_in a.inscription ≡ []) t.arcs) }
{
    let mut made = Items::new(alloc);
    for (kind, inscription) in arcs {
        let inscribed = expr_of(alloc, *inscription)?;
        made.push(NetArc {
            kind: *kind,
            place: 0,
            inscription: inscribed,
        })?;
    }
    Ok(Transition {
        name: named(alloc, "t")?,
        vars: Items::new(alloc),
        action_vars: Items::from_vec(Vec::from_array(alloc, [0])?),
        equalities: Items::new(alloc),
        guards: Items::new(alloc),
        actions: Items::new(alloc),
        creations: Items::new(alloc),
        uplink: None,
        downlinks: Items::new(alloc),
        arcs: made,
    })
}

fn system_with(
    alloc: Global,
    tokens: usize,
    arcs: &[(ArcKind, Inscription)],
) -> Result<System, NoMemory>
    ensures one { IfOk result (λ system. length system.nets ≡ 1) }
    ensures plain { IfOk result
        (λ system. All (λ a. operands_in a.inscription ≡ []) (transition_at system 0 0).arcs) }
{
    let place = place_with(alloc, tokens)?;
    let transition = transition_with(alloc, arcs)?;
    let one = Vec::from_array(alloc, [transition])?;
    let transitions = Items::from_vec(one);
    let net = Net {
        name: named(alloc, "main")?,
        vars: Items::new(alloc),
        places: Items::from_vec(Vec::from_array(alloc, [place])?),
        transitions,
    };
    let main = Vec::from_array(alloc, [net])?;
    let nets = Items::from_vec(main);
    Ok(System {
        nets,
        channels: Items::new(alloc),
    })
}

fn binding(alloc: Global) -> Result<Binding, NoMemory>
    ensures { IfOk result (λ b. All (λ node. (node.net ≡ 0) × (node.transition ≡ 0)) b.nodes) }
{
    let node = Node {
        path: Items::new(alloc),
        inst: InstRef::Old(1),
        net: 0,
        transition: 0,
        values: Items::new(alloc),
    };
    Ok(Binding {
        nodes: Items::from_vec(Vec::from_array(alloc, [node])?),
    })
}

// Whether the binding fits, and how many tokens it puts at the place.
fn comes_to(
    alloc: Global,
    tokens: usize,
    arcs: &[(ArcKind, Inscription)],
) -> Result<(bool, Option<u128>), NoMemory> {
    let system = system_with(alloc, tokens, arcs)?;
    let binding = binding(alloc)?;
    let table = Table::new(alloc, &system)?;
    let demands = demands_of(alloc, &system, &binding)?;
    let filled = match demands.filled.get(0) {
        Some(fill) => Some(fill.count),
        None => None,
    };
    Ok((fits(alloc, &system, &table, &binding)?, filled))
}

#[test]
fn a_place_has_room_for_one(rt: HostRuntime) -> Result<(), Fail> {
    let one = Inscription::One;
    let list = Inscription::Listed;
    let later = Inscription::Awaited;
    let cases: &[(usize, &[(ArcKind, Inscription)], bool, Option<u128>)] = &[
        (1, &[], true, None),
        (0, &[(ArcKind::Output, one)], true, Some(1)),
        (1, &[(ArcKind::Output, one)], false, Some(1)),
        (
            1,
            &[(ArcKind::Input, one), (ArcKind::Output, one)],
            true,
            Some(1),
        ),
        (1, &[(ArcKind::Reserve, one)], true, Some(1)),
        (
            1,
            &[(ArcKind::Reserve, one), (ArcKind::Output, one)],
            false,
            Some(2),
        ),
        (
            1,
            &[(ArcKind::Test, one), (ArcKind::Output, one)],
            false,
            Some(1),
        ),
        (
            0,
            &[(ArcKind::Inhibit, one), (ArcKind::Output, one)],
            true,
            Some(1),
        ),
        (
            1,
            &[(ArcKind::Clear, list), (ArcKind::Output, one)],
            true,
            Some(1),
        ),
        (
            1,
            &[(ArcKind::FlexInput, list), (ArcKind::FlexOutput, list)],
            true,
            Some(1),
        ),
        (1, &[(ArcKind::FlexOutput, list)], false, Some(1)),
        (
            0,
            &[(ArcKind::Output, one), (ArcKind::Output, one)],
            false,
            Some(2),
        ),
        (0, &[(ArcKind::Output, later)], true, Some(1)),
        (1, &[(ArcKind::Output, later)], false, Some(1)),
        (
            0,
            &[(ArcKind::Output, later), (ArcKind::Output, one)],
            false,
            Some(2),
        ),
        (
            1,
            &[(ArcKind::Input, one), (ArcKind::Output, later)],
            true,
            Some(1),
        ),
        (2, &[], false, None),
    ];
    for (tokens, arcs, does_fit, filled) in cases {
        let came = comes_to(rt.alloc(), *tokens, arcs)?;
        assert_eq!(rt; came.0, *does_fit);
        assert_eq!(rt; came.1, *filled);
    }
    Ok(())
}
