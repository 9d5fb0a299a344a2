//! Tokens in a row, written into windows.
ghost use Rattle.std.specs.Prelude.{◌≡◌, flat_map};
ghost use Rattle.rn_model.specs.Repeats.{repeats_of};
ghost use Rattle.rn_record.specs.RecordText.{token_text, count_text, item_text, tokens_text};
ghost use Rattle.rn_spell.specs.Made.{names_of_nets};
ghost use Rattle.rn_window.specs.Windows.{after};

use rn_bag::Bag;
use rn_spell::{NetNames, put_numeral, put_value};
use rn_value::Value;
use rn_window::Window;

/// Writes tokens, in format 1 each by itself, in format 2 equal ones once, with their number.
pub(crate) fn put_tokens(format: u32, bag: &Bag, names: &NetNames<'_>, window: &mut Window)
    ensures { window.new ≡ after window.old (tokens_text format
        (names_of_nets names.now.system.now names.now.nets.now) bag.now) }
{
    if format == 1 {
        put_each(bag, names, window);
    } else {
        put_counted(bag, names, window);
    }
}

fn put_each(bag: &Bag, names: &NetNames<'_>, window: &mut Window)
    ensures { window.new ≡ after window.old (flat_map
        (token_text (names_of_nets names.now.system.now names.now.nets.now)) bag.now) }
{
    for index in 0..bag.len() {
        if let Some(token) = bag.get(index) {
            put_token(token, names, window);
        }
    }
}

fn put_counted(bag: &Bag, names: &NetNames<'_>, window: &mut Window)
    ensures { window.new ≡ after window.old (flat_map
        (item_text (names_of_nets names.now.system.now names.now.nets.now))
        (repeats_of bag.now)) }
{
    let mut index = 0;
    while let Some(token) = bag.get(index) {
        let next = bag.next_other(index);
        put_item(token, next.saturating_sub(index) as u64, names, window);
        index = next;
    }
}

#[tactic(auto, using(rn_window::proofs::Windows::written))]
fn put_item(token: &Value, count: u64, names: &NetNames<'_>, window: &mut Window)
    ensures { window.new ≡ after window.old
        (item_text (names_of_nets names.now.system.now names.now.nets.now)
        (record { value = token.now; count = count })) }
{
    put_token(token, names, window);
    put_count(count, window);
}

fn put_token(token: &Value, names: &NetNames<'_>, window: &mut Window)
    ensures { window.new ≡ after window.old
        (token_text (names_of_nets names.now.system.now names.now.nets.now) token.now) }
{
    window.put_byte(b' ');
    put_value(token, names, window);
}

// Writes how often a token stands there, and nothing where it is once.
#[tactic(auto, using(rn_window::proofs::Windows::written))]
fn put_count(count: u64, window: &mut Window)
    ensures { window.new ≡ after window.old (count_text count) }
{
    if count == 1 {
        return;
    }
    window.put_byte(b'*');
    put_numeral(count, window);
}
