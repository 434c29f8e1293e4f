// How the threads of a life are started.
use lnsd_links::STACK;
use std::alloc::AllocError;
use std::thread::{Builder, JoinHandle, Scope};

/// Starts a thread of a life under this name; `None` if that fails.
pub fn start<'x, E, T: Send + Drop + 'x, F: FnOnce() -> T + Send + Drop + 'x>(
    scope: &Scope<'x, E>,
    name: Result<String, AllocError>,
    job: F,
) -> Option<JoinHandle<T>>
    requires { F.pre job }
{
    let builder = Builder::new().name(name.ok()?).stack_size(STACK);
    builder.spawn_scoped(scope, job).ok()
}
