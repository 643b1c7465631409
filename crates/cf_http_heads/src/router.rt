//! Where a request goes, by its method and its target.

ghost use Rattle.std.specs.Prelude.{◌≡◌, ◌∷◌, [], ℕ, List, OnOk};
ghost use Rattle.cf_http_heads.specs.Routes.{path_of, words_of, route_of, ask_of, IsSplit, HasTwoWords};
ghost use Rattle.cf_http_heads.specs.Rows.{router_rows, IsPlace};

use crate::route::{Miss, Route, line_in, report_in};
use matchit::{InsertError, Router};
use std::alloc::{AllocError, Global};

/// What a path stands for.
#[derive(Clone, Copy)]
enum Place {
    Calls,
    Lines,
    Reports,
}

/// The routes of a desk: `/calls`, `/lines/{line}/{year}` and `/reports/{year}/{kind}`.
#[derive(Drop)]
pub struct Routes {
    router: Router<Place>,
    ghost rows: { router ≡ router_rows },
}

/// The target up to its question mark.
fn path_in(target: &str) -> &str
    ensures { result.now ≡ path_of target.now }
{
    match target.split_once('?') {
        Some((path, _)) => path,
        None => target,
    }
}

/// A path at its first slash.
fn split_word(path: &str) -> Option<(&str, &str)>
    ensures { IsSplit path.now result }
{
    path.split_once('/')
}

/// The last two words of a path that has three.
fn two_words(path: &str) -> Option<(&str, &str)>
    ensures { (a b c : List ℕ) → words_of path.now ≡ [] ∷ a ∷ b ∷ c ∷ [] → HasTwoWords b c result }
{
    let (_, words) = split_word(path)?;
    let (_, two) = split_word(words)?;
    split_word(two)
}

/// Adds the patterns of a desk.
fn add_patterns(router: &mut Router<Place>) -> Result<(), InsertError>
    requires { router.old ≡ [] }
    ensures { OnOk result (router.new ≡ router_rows) }
{
    router.insert("/calls", Place::Calls)?;
    router.insert("/lines/{line}/{year}", Place::Lines)?;
    router.insert("/reports/{year}/{kind}", Place::Reports)?;
    Ok(())
}

impl Routes {
    /// Their patterns are fixed and agree, so only memory can be wanting.
    pub fn new(alloc: Global) -> Result<Routes, AllocError> {
        let mut router = Router::new(alloc);
        match add_patterns(&mut router) {
            Ok(()) => Ok(Routes { router }),
            Err(_) => Err(AllocError),
        }
    }

    /// What a path stands for.
    fn place_in(&self, path: &str) -> Option<Place>
        ensures { IsPlace (words_of path.now) result }
    {
        match self.router.at(path) {
            Ok(found) => Some(*found.value),
            Err(_) => None,
        }
    }

    /// The route of a path.
    fn route_in(&self, path: &str) -> Option<Route>
        ensures { result ≡ route_of path.now }
    {
        match self.place_in(path)? {
            Place::Calls => Some(Route::Calls),
            Place::Lines => {
                let (line, year) = two_words(path)?;
                line_in(line, year)
            }
            Place::Reports => {
                let (year, kind) = two_words(path)?;
                report_in(year, kind)
            }
        }
    }

    /// Where a request goes.
    pub fn ask_in(&self, method: &str, target: &str) -> Result<Route, Miss>
        ensures { result ≡ ask_of method.now target.now }
    {
        let Some(route) = self.route_in(path_in(target)) else {
            return Err(Miss::NoRoute);
        };
        if method == route.method().name() {
            Ok(route)
        } else {
            Err(Miss::WrongMethod(route.method()))
        }
    }
}
