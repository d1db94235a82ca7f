//! Authorizations with several owners.
ghost use Rattle.std.specs.Prelude.{◌≡◌, IfOk};

use crate::auth::Auth;
use element_name::NoMemory;
use std::alloc::Global;
use std::marker::Model;
use std::sync::Arc;

/// An authorization that operations and policies share: one of them in memory, however many have it. Contracts see the
/// authorization.
#[derive(Drop)]
pub struct SharedAuth {
    auth: Arc<Auth, Global>,
}

impl Model for SharedAuth {
    ghost use Rattle.std.specs.Arc.{arc_value};
    ghost use Rattle.policy_book.specs.declared.auth.Auth.{Auth};

    ghost Value = { Auth };

    ghost view = { λ s. arc_value s.auth };
}

impl SharedAuth {
    /// The authorization, with one owner. Takes memory for it, and none for its lists, which it brings.
    pub fn new(alloc: Global, auth: Auth) -> Result<SharedAuth, NoMemory>
        ensures { IfOk result (λ s. s ≡ auth) }
    {
        match Arc::new(alloc, auth) {
            Ok(auth) => Ok(SharedAuth { auth }),
            Err(_) => Err(NoMemory),
        }
    }

    /// One more owner of the same. Takes constant time and no memory.
    pub fn shared(&self) -> Result<SharedAuth, NoMemory>
        ensures { IfOk result (λ s. s ≡ self.now) }
    {
        let auth = Arc::try_clone(&self.auth)?;
        Ok(SharedAuth { auth })
    }

    /// The authorization.
    pub fn get(&self) -> &Auth
        ensures { result.now ≡ self.now }
    {
        &self.auth
    }
}
