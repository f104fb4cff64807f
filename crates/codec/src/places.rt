// The records of a lent image by their numbers. Each function is one line over `record` and a record's own reading or writing: a
// trait for them would need an impl for each record, which is longer.
// A number in range stays a number: a type for it would be made and taken apart at each call, with the same goal.
ghost use Rattle.std.specs.Prelude.{◌≡◌, ◌+◌, ◌*◌, ◌≤◌};
ghost use Rattle.protocol.specs.Sizes.{clients, servers, views, messages};
ghost use Rattle.protocol.specs.Worlds.{present as is_present};
ghost use Rattle.codec.specs.Layout.{image_size};
ghost use Rattle.codec.specs.Lists.{part};
ghost use Rattle.codec.specs.Images.{decode};
ghost use Rattle.codec.specs.Places.{used_at, put_used, administrator_at, put_administrator, view_at, put_view, holder_at, put_holder, server_at, put_server, client_at, put_client, message_at, put_message};

use super::bytes::{array_at, get16, put8, put16};
use super::layout::{
    ADMINISTRATOR_AT, CLIENT, CLIENTS_AT, HOLDER, HOLDERS_AT, Image, MESSAGE, MESSAGES_AT, SERVER,
    SERVERS_AT, THRESHOLD_AT, USED_AT, VIEW, VIEWS_AT,
};
use super::records::{
    read_administrator, read_client, read_message, read_server, read_view, write_administrator,
    write_client, write_message, write_server, write_view,
};
use protocol::{
    Administrator, Client, Message, MessageNumber, Server, ServerNumber, View, ViewNumber,
};

// Record k, counted from 0, of those of one width that lie one behind another from a place on.
#[tactic(auto, unfolding(crate::specs::Lists::part))]
pub fn record<const WIDTH: usize>(image: &Image, from: usize, k: usize) -> &[u8; WIDTH]
    requires { from + WIDTH * k + WIDTH ≤ image_size }
    ensures { result.now ≡ part image.now (from + WIDTH * k) WIDTH }
{
    array_at(image, from + WIDTH * k)
}

// Messages used.
#[tactic(auto, unfolding(crate::specs::Places::used_at))]
pub fn load_used(image: &Image) -> u16
    ensures { result ≡ used_at image.now }
{
    get16(image, USED_AT)
}

// A message of that number was sent.
#[tactic(auto, unfolding(protocol::specs::Worlds::present, crate::specs::Images::decode))]
pub fn present(image: &Image, n: MessageNumber) -> bool
    ensures { result ≡ is_present (decode image.now) n.0 }
{
    (1..=load_used(image)).contains(&n.0)
}

#[tactic(auto, unfolding(crate::specs::Places::put_used))]
pub fn store_used(image: &mut Image, n: u16)
    ensures { image.new ≡ put_used image.old n }
{
    put16(image, USED_AT, n);
}

#[tactic(auto, unfolding(crate::specs::Places::administrator_at, crate::specs::Lists::part))]
pub fn load_administrator(image: &Image) -> Administrator
    ensures { result ≡ administrator_at image.now }
{
    read_administrator(array_at(image, ADMINISTRATOR_AT))
}

#[tactic(auto, unfolding(crate::specs::Places::put_administrator))]
pub fn store_administrator(image: &mut Image, a: Administrator)
    ensures { image.new ≡ put_administrator image.old a }
{
    write_administrator(image, ADMINISTRATOR_AT, a);
}

#[tactic(auto, unfolding(crate::specs::Places::view_at))]
pub fn load_view(image: &Image, t: ViewNumber) -> View
    requires { (1 ≤ t.0) × (t.0 ≤ views) }
    ensures { result ≡ view_at image.now t.0 }
{
    read_view(record::<VIEW>(image, VIEWS_AT, t.0 as usize - 1))
}

#[tactic(auto, unfolding(crate::specs::Places::put_view))]
pub fn store_view(image: &mut Image, t: ViewNumber, v: View)
    requires { (1 ≤ t.0) × (t.0 ≤ views) }
    ensures { image.new ≡ put_view image.old t.0 v }
{
    write_view(image, VIEWS_AT + VIEW * (t.0 as usize - 1), v);
}

// The threshold of view t alone.
#[tactic(auto, unfolding(crate::specs::Places::view_at, crate::specs::Records::view_of, crate::specs::Lists::part))]
pub fn load_threshold(image: &Image, t: ViewNumber) -> u8
    requires { (1 ≤ t.0) × (t.0 ≤ views) }
    ensures { result ≡ (view_at image.now t.0).f }
{
    image[VIEWS_AT + VIEW * (t.0 as usize - 1) + THRESHOLD_AT]
}

// The number of the faulty key holders of view t.
#[tactic(auto, unfolding(crate::specs::Places::holder_at))]
pub fn load_holders(image: &Image, t: ViewNumber) -> u8
    requires { (1 ≤ t.0) × (t.0 ≤ views) }
    ensures { result ≡ holder_at image.now t.0 }
{
    image[HOLDERS_AT + HOLDER * (t.0 as usize - 1)]
}

#[tactic(auto, unfolding(crate::specs::Places::put_holder, crate::specs::Records::holder_bytes))]
pub fn store_holders(image: &mut Image, t: ViewNumber, k: u8)
    requires { (1 ≤ t.0) × (t.0 ≤ views) }
    ensures { image.new ≡ put_holder image.old t.0 k }
{
    put8(image, HOLDERS_AT + HOLDER * (t.0 as usize - 1), k);
}

#[tactic(auto, unfolding(crate::specs::Places::server_at))]
pub fn load_server(image: &Image, s: ServerNumber) -> Server
    requires { (1 ≤ s.0) × (s.0 ≤ servers) }
    ensures { result ≡ server_at image.now s.0 }
{
    read_server(record::<SERVER>(image, SERVERS_AT, s.0 as usize - 1))
}

#[tactic(auto, unfolding(crate::specs::Places::put_server))]
pub fn store_server(image: &mut Image, s: ServerNumber, v: Server)
    requires { (1 ≤ s.0) × (s.0 ≤ servers) }
    ensures { image.new ≡ put_server image.old s.0 v }
{
    write_server(image, SERVERS_AT + SERVER * (s.0 as usize - 1), v);
}

#[tactic(auto, unfolding(crate::specs::Places::client_at))]
pub fn load_client(image: &Image, c: u8) -> Client
    requires { (1 ≤ c) × (c ≤ clients) }
    ensures { result ≡ client_at image.now c }
{
    read_client(record::<CLIENT>(image, CLIENTS_AT, c as usize - 1))
}

#[tactic(auto, unfolding(crate::specs::Places::put_client))]
pub fn store_client(image: &mut Image, c: u8, v: Client)
    requires { (1 ≤ c) × (c ≤ clients) }
    ensures { image.new ≡ put_client image.old c v }
{
    write_client(image, CLIENTS_AT + CLIENT * (c as usize - 1), v);
}

#[tactic(auto, unfolding(crate::specs::Places::message_at))]
pub fn load_message(image: &Image, n: MessageNumber) -> Message
    requires { n.0 ≤ messages }
    ensures { result ≡ message_at image.now n.0 }
{
    read_message(record::<MESSAGE>(image, MESSAGES_AT, n.0 as usize))
}

#[tactic(auto, unfolding(crate::specs::Places::put_message))]
pub fn store_message(image: &mut Image, n: MessageNumber, m: Message)
    requires { n.0 ≤ messages }
    ensures { image.new ≡ put_message image.old n.0 m }
{
    write_message(image, MESSAGES_AT + MESSAGE * (n.0 as usize), m);
}
