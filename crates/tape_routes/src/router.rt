// The router that finds the endpoint of a target.
ghost use Rattle.std.specs.Prelude.{◌≡◌, IfSome, OnOk, Some, option_map};
ghost use Rattle.tape_routes.specs.Router.{FindsRoutes, HasOneMore, StandsApart};
ghost use Rattle.tape_routes.specs.Routes.{endpoint_of, parameter_of};

use crate::routes::{ENDPOINTS, Endpoint, below};
use cta_site::NoMemory;
use matchit::{InsertError, Router};
use std::alloc::Global;

/// The route table, made ready to find the route of a target. It is made once, and serves every request.
#[derive(Drop)]
pub struct Routes {
    router: Router<Endpoint>,
    ghost finds: { FindsRoutes router },
}

// Puts the route of an endpoint into a router. Its text is one that a router reads, so only want of memory is left to refuse it.
fn add(router: &mut Router<Endpoint>, endpoint: Endpoint) -> Result<(), NoMemory>
    requires { StandsApart endpoint router.old }
    ensures { OnOk result (HasOneMore endpoint router.old router.new) }
{
    match router.insert(endpoint.text(), endpoint) {
        Ok(()) => Ok(()),
        Err(InsertError::OutOfMemory) => Err(NoMemory),
        Err(_) => unreachable!(),
    }
}

impl Routes {
    /// The route table, ready. NoMemory leaves nothing. Its cost is that of seventeen routes.
    pub fn new(alloc: Global) -> Result<Routes, NoMemory> {
        let mut router = Router::new(alloc);
        for endpoint in ENDPOINTS.iter() {
            add(&mut router, *endpoint)?;
        }
        Ok(Routes { router })
    }

    // The endpoint whose route has a target, and the parameter that the target has there, before percent-decoding.
    pub(crate) fn find<'t>(&self, target: &'t str) -> Option<(Endpoint, &'t [u8])>
        ensures endpoint { option_map (λ f. f.0) result ≡ endpoint_of target.now }
        ensures parameter { IfSome result (λ f. parameter_of f.0 target.now ≡ Some f.1.now) }
    {
        let Ok(found) = self.router.at(target) else {
            return None;
        };
        match *found.value {
            // A path begins with the slash, which the router's rest has not.
            Endpoint::Data => {
                let path = below(target.as_bytes(), "/data")?;
                Some((Endpoint::Data, path))
            }
            endpoint => match found.params.iter().next() {
                Some((_, name)) => Some((endpoint, name.as_bytes())),
                None => Some((endpoint, b"")),
            },
        }
    }
}
