//! The protocol list of a JOIN.
ghost use Rattle.std.specs.Prelude.{◌≡◌, [], ◌∷◌, IfOk, MatchOption, OnErr};
ghost use Rattle.cg_request.specs.Protocols.{AreProtocols};

use crate::protocol::{PROTOCOLS_MAX, Protocol};
use cg_record::{Distinct, Keyed};
use std::alloc::{AllocError, Global};
use std::marker::Model;
use std::sync::Arc;

/// The protocols that a member supports, in order of preference: 1 to `PROTOCOLS_MAX`, with different names. Contracts
/// see the list. A clone shares the list and does not copy it.
#[derive(Debug, Drop)]
pub struct Protocols {
    items: Arc<Distinct<Protocol, 1, PROTOCOLS_MAX>>,
}

impl Model for Protocols {
    ghost use Rattle.std.specs.Prelude.{List};
    ghost use Rattle.cg_request.specs.declared.protocol.Protocol.{Protocol};

    ghost Value = { List Protocol };

    ghost view = { λ p. p.items.value };
}

impl Keyed for Protocol {
    ghost use Rattle.cg_request.specs.Protocols.{share_name};

    ghost shares = { share_name };

    fn shares_key(&self, other: &Self) -> bool {
        self.name == other.name
    }
}

impl Protocols {
    /// Wraps the protocols, without a copy. Returns `None` if the vector is empty, too long or repeats a name; only others
    /// need an allocation.
    pub fn from_vec(alloc: Global, items: Vec<Protocol>) -> Result<Option<Self>, AllocError>
        ensures ok { IfOk result (λ made. MatchOption made (¬ AreProtocols items.items)
            (λ protocols. AreProtocols items.items × (protocols ≡ items.items))) }
        ensures err { OnErr result (AreProtocols items.items) }
    {
        let Ok(protocols) = Distinct::from_vec(items) else {
            return Ok(None);
        };
        let items = Arc::new(alloc, protocols)?;
        Ok(Some(Protocols { items }))
    }

    /// Creates a list of one protocol.
    #[tactic(auto, using(crate::proofs::Alone::alone))]
    pub fn only(alloc: Global, protocol: Protocol) -> Result<Self, AllocError>
        ensures { IfOk result (λ protocols. protocols ≡ protocol ∷ []) }
    {
        let mut items = Vec::with_capacity(alloc, 1)?;
        items.push(protocol)?;
        let items = Arc::new(alloc, Distinct::from_lawful(items))?;
        Ok(Protocols { items })
    }

    /// Returns the protocols, the preferred one first.
    pub fn as_slice(&self) -> &[Protocol]
        ensures value { result.now ≡ self.now }
        ensures lawful { AreProtocols self.now }
    {
        self.items.as_slice()
    }
}

impl Clone for Protocols {
    ghost is_clone = { λ protocols copy. copy ≡ protocols };

    fn clone(&self) -> Result<Self, AllocError> {
        let items = self.items.clone()?;
        Ok(Protocols { items })
    }
}
