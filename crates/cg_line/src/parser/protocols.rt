//! Protocols of a JOIN: `name=bytes` words.
ghost use Rattle.std.specs.Prelude.{◌≡◌, map, IsTrue, IfOk};
ghost use Rattle.std.specs.List.{list_all};
ghost use Rattle.cg_line.specs.Parsing.{are_protocols, is_protocol, protocol_in};
ghost use Rattle.cg_line.specs.Fields.{bytes_in, is_opaque};

use crate::parser::bytes::{bytes_in, is_opaque};
use crate::parser::keys::{given_to, have_own_keys, key_of};
use crate::parser::names::{is_name, name_in};
use cg_group::{PROTOCOLS_MAX, Protocol, Protocols};
use cg_names::NAME_BYTES_MAX;
use cg_record::{SUBSCRIPTION_BYTES_MAX, Subscription};
use std::alloc::{AllocError, Global};

#[tactic(auto, unfolding(crate::specs::Parsing::is_protocol))]
fn is_protocol(word: &[u8]) -> bool
    ensures { result ≡ is_protocol word.now }
{
    is_name::<NAME_BYTES_MAX>(key_of(word)) && is_opaque(given_to(word), SUBSCRIPTION_BYTES_MAX)
}

fn pass_each(words: &[&[u8]]) -> bool
    ensures { result ≡ list_all (λ w. is_protocol w.now) words.now }
{
    words.iter().all(|word| is_protocol(word))
}

// Returns whether each word is a protocol.
fn are_each(words: &[&[u8]]) -> bool
    ensures { result ≡ list_all is_protocol (map (λ w. w.now) words.now) }
{
    pass_each(words)
}

/// Returns whether the words are the protocols of one JOIN. Does not allocate.
#[tactic(auto, unfolding(crate::specs::Parsing::are_protocols))]
pub fn are_protocols(words: &[&[u8]]) -> bool
    ensures { result ≡ are_protocols (map (λ w. w.now) words.now) }
{
    1 <= words.len() && words.len() <= PROTOCOLS_MAX && are_each(words) && have_own_keys(words)
}

// Decodes the bytes after the name of a checked word.
fn subscription_in(alloc: Global, word: &[u8]) -> Result<Subscription, AllocError>
    requires { IsTrue (is_opaque SUBSCRIPTION_BYTES_MAX word.now) }
    ensures { IfOk result (λ bytes. bytes ≡ bytes_in word.now) }
{
    match Subscription::from_vec(bytes_in(alloc, word)?) {
        Ok(subscription) => Ok(subscription),
        Err(_) => unreachable!(),
    }
}

#[tactic(auto, unfolding(crate::specs::Parsing::is_protocol, crate::specs::Parsing::protocol_in))]
fn protocol_in(alloc: Global, word: &[u8]) -> Result<Protocol, AllocError>
    requires { IsTrue (is_protocol word.now) }
    ensures { IfOk result (λ protocol. protocol ≡ protocol_in word.now) }
{
    let name = name_in(alloc, key_of(word))?;
    let subscription = subscription_in(alloc, given_to(word))?;
    Ok(Protocol { name, subscription })
}

fn each_in(alloc: Global, words: &[&[u8]]) -> Result<Vec<Protocol>, AllocError>
    requires { IsTrue (list_all is_protocol (map (λ w. w.now) words.now)) }
    ensures { IfOk result (λ protocols. protocols.items ≡ map protocol_in (map (λ w. w.now) words.now)) }
{
    let mut protocols = Vec::with_capacity(alloc, words.len())?;
    for word in words {
        protocols.push(protocol_in(alloc, word)?)?;
    }
    Ok(protocols)
}

/// Returns the protocols of checked words.
#[tactic(auto, unfolding(crate::specs::Parsing::are_protocols))]
pub fn protocols_in(alloc: Global, words: &[&[u8]]) -> Result<Protocols, AllocError>
    requires { IsTrue (are_protocols (map (λ w. w.now) words.now)) }
    ensures { IfOk result (λ protocols. protocols ≡ map protocol_in (map (λ w. w.now) words.now)) }
{
    match Protocols::from_vec(alloc, each_in(alloc, words)?)? {
        Some(protocols) => Ok(protocols),
        None => unreachable!(),
    }
}
