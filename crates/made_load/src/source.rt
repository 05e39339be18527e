//! The sources of the documents, drawn and written.
ghost use Rattle.std.specs.Prelude.{◌≡◌, ◌≤◌, ◌++◌, ◌+◌, ◌*◌, decimal};
ghost use Rattle.tree_json.specs.Output.{room_of};
ghost use Rattle.tree_json.specs.Text.{comma_if};
ghost use Rattle.made_load.specs.Sources.{color_name, site_name, stock_item, stock, offer, offers, source};

use crate::draws::Draws;
use tree_json::{OutText, put_count};

/// Appends a number, for which there are 20 bytes.
#[tactic(auto, using(crate::proofs::Lengths::few_digits))]
pub(crate) fn put_number(number: u64, into: &mut OutText)
    requires { 20 ≤ into.old.spare }
    ensures bytes { into.new.bytes ≡ into.old.bytes ++ decimal number }
    ensures spare { into.old.spare ≤ into.new.spare + 20 }
    ensures room { room_of into.old ≤ room_of into.new }
{
    put_count(number, into);
}

// With a comma where something stands before.
fn put_comma(later: bool, into: &mut OutText)
    requires { 1 ≤ into.old.spare }
    ensures bytes { into.new.bytes ≡ into.old.bytes ++ comma_if later }
    ensures spare { into.old.spare ≤ into.new.spare + 1 }
    ensures room { room_of into.old ≤ room_of into.new }
{
    if later {
        into.push_spare(b",");
    }
}

fn put_color(color: u64, into: &mut OutText)
    requires { 5 ≤ into.old.spare }
    ensures bytes { into.new.bytes ≡ into.old.bytes ++ color_name color }
    ensures spare { into.old.spare ≤ into.new.spare + 5 }
    ensures room { room_of into.old ≤ room_of into.new }
{
    if color == 0 {
        into.push_spare(b"red");
    } else if color == 1 {
        into.push_spare(b"blue");
    } else {
        into.push_spare(b"green");
    }
}

fn put_site(site: u64, into: &mut OutText)
    requires { 1 ≤ into.old.spare }
    ensures bytes { into.new.bytes ≡ into.old.bytes ++ site_name site }
    ensures spare { into.old.spare ≤ into.new.spare + 1 }
    ensures room { room_of into.old ≤ room_of into.new }
{
    if site == 0 {
        into.push_spare(b"a");
    } else {
        into.push_spare(b"b");
    }
}

#[tactic(auto, unfolding(crate::specs::Sources::stock_item))]
fn put_stock_item(draws: &mut Draws, into: &mut OutText)
    requires { 37 ≤ into.old.spare }
    ensures bytes { into.new.bytes ≡ into.old.bytes ++ (stock_item draws.old.state).text }
    ensures state { draws.new.state ≡ (stock_item draws.old.state).after }
    ensures spare { into.old.spare ≤ into.new.spare + 37 }
    ensures room { room_of into.old ≤ room_of into.new }
{
    into.push_spare(b"{\"n\":");
    put_number(draws.draw(10), into);
    into.push_spare(b",\"site\":\"");
    put_site(draws.draw(2), into);
    into.push_spare(b"\"}");
}

// The stock with its commas: at most two objects.
#[tactic(auto, unfolding(crate::specs::Sources::stock))]
fn put_stock(draws: &mut Draws, into: &mut OutText)
    requires { 76 ≤ into.old.spare }
    ensures bytes { into.new.bytes ≡ into.old.bytes ++ (stock draws.old.state).text }
    ensures state { draws.new.state ≡ (stock draws.old.state).after }
    ensures spare { into.old.spare ≤ into.new.spare + 76 }
    ensures room { room_of into.old ≤ room_of into.new }
{
    let mut left = draws.draw(3);
    let mut later = false;
    'items: while left != 0 {
        put_comma(later, into);
        put_stock_item(draws, into);
        later = true;
        left -= 1;
    }
}

#[tactic(auto, unfolding(crate::specs::Sources::offer))]
fn put_offer(draws: &mut Draws, into: &mut OutText)
    requires { 134 ≤ into.old.spare }
    ensures bytes { into.new.bytes ≡ into.old.bytes ++ (offer draws.old.state).text }
    ensures state { draws.new.state ≡ (offer draws.old.state).after }
    ensures spare { into.old.spare ≤ into.new.spare + 134 }
    ensures room { room_of into.old ≤ room_of into.new }
{
    into.push_spare(b"{\"color\":\"");
    put_color(draws.draw(3), into);
    into.push_spare(b"\",\"price\":");
    put_number(draws.draw(100), into);
    into.push_spare(b",\"stock\":[");
    put_stock(draws, into);
    into.push_spare(b"]}");
}

// The offers with their commas: at most three.
#[tactic(auto, unfolding(crate::specs::Sources::offers))]
fn put_offers(draws: &mut Draws, into: &mut OutText)
    requires { 405 ≤ into.old.spare }
    ensures bytes { into.new.bytes ≡ into.old.bytes ++ (offers draws.old.state).text }
    ensures state { draws.new.state ≡ (offers draws.old.state).after }
    ensures spare { into.old.spare ≤ into.new.spare + 405 }
    ensures room { room_of into.old ≤ room_of into.new }
{
    let mut left = draws.draw(4);
    let mut later = false;
    'offers: while left != 0 {
        put_comma(later, into);
        put_offer(draws, into);
        later = true;
        left -= 1;
    }
}

/// Appends the source of a document.
#[tactic(auto, unfolding(crate::specs::Sources::source))]
pub(crate) fn put_source(document: u64, draws: &mut Draws, into: &mut OutText)
    requires { 460 ≤ into.old.spare }
    ensures bytes { into.new.bytes ≡ into.old.bytes ++ (source document draws.old.state).text }
    ensures state { draws.new.state ≡ (source document draws.old.state).after }
    ensures spare { into.old.spare ≤ into.new.spare + 460 }
    ensures room { room_of into.old ≤ room_of into.new }
{
    into.push_spare(b"{\"name\":\"item ");
    put_number(document, into);
    into.push_spare(b"\",\"offers\":[");
    put_offers(draws, into);
    into.push_spare(b"]}");
}
