//! Reference nets: their plain data, and what their runs are.
#![tactic(auto)]

mod binding;
mod copying;
mod expr;
mod expression_laws;
mod firing_laws;
mod laws;
pub mod limits;
mod live_laws;
mod log;
mod new_instances;
mod node_text;
mod numbers;
mod ordering;
mod parts;
mod repeats;
mod round_laws;
mod sharing;
mod system;
mod variables;

pub use binding::{Binding, Node, Nodes};
pub use copying::{copy_binding, copy_entry};
pub use expr::{Alts, CompareKind, Cond, Conds, Expr, Exprs, OpKind, Pairs, Simple, Simples};
pub use expression_laws::{
    agreeing_values_have_kinds, expressions_are_renamed, expressions_look_up, kinds_are_kept,
};
pub use firing_laws::{
    each_number_is_there, firings_give_numbers, firings_move_tokens, runs_keep_capacities,
    tokens_after_firing_are_counted,
};
pub use laws::{
    bindings_look_at_their_own, dead_runs_stop, dead_stay_dead, enabled_name_live,
    firings_report_what_is_there, forced_is_own, initial_tokens_are_sound, lists_of_values,
    logs_end_once, next_number_is_free, own_values_satisfy, prefixes_are_logs, prefixes_are_runs,
    runs_end_in_markings, runs_grow, tables_stand, tokens_stay_sound,
};
pub use live_laws::{live_part_is_unique, places_fit_by_arcs, starts_find_room};
pub use log::{Entries, Entry, FaultKind, MarkLine, MarkLines, Options, Reason, Told};
pub use node_text::{write_instance, write_nodes};
pub use numbers::named;
pub use ordering::{binding_order_is_total, compare_bindings, same_binding};
pub use parts::{
    find_net, find_transition, finds_token, finds_values, is_output, net_at, places_of,
    transition_at, transition_of, transitions_of,
};
pub use repeats::{Repeat, Repeats, repeats_hold_values, same_repeats};
pub use round_laws::{
    forced_terms_are_own, forced_values_have_kinds, items_come_in, more_items_force_more,
};
pub use system::{
    Action, Actions, ArcKind, Channel, Channels, Creation, Creations, Downlink, Downlinks, Net,
    NetArc, NetArcs, Nets, Nums, Place, Places, System, Transition, Transitions, Uplink, Var, Vars,
};
pub use variables::{put_vars, put_vars_of};
