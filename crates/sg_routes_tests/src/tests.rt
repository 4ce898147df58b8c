//! Targets, with what each asks for. Of each target `matchit` finds the same route over the same seven patterns.

use matchit::{InsertError, Router};
use sg_http::Verb;
use sg_routes::{Route, ask, route_of};
use std::alloc::Global;
use std::process::Abort;
use std::test::Fail;

// A method, a target, and what they ask for as `Debug` shows it.
type Case = (Verb, &'static str, &'static str);

const CASES: [Case; 40] = [
    (Verb::Post, "/edits", "Ok(Edits)"),
    (Verb::Get, "/edits", "Err(Method(Post))"),
    (Verb::Other, "/edits", "Err(Method(Post))"),
    (Verb::Post, "/edits/", "Err(Path)"),
    (Verb::Post, "edits", "Err(Path)"),
    (Verb::Post, "//edits", "Err(Path)"),
    (Verb::Post, "/Edits", "Err(Path)"),
    (Verb::Post, "/edits?", "Err(Path)"),
    (
        Verb::Put,
        "/media/1/0",
        "Ok(Piece { media: MediaId(1), offset: 0 })",
    ),
    (
        Verb::Put,
        "/media/4294967295/4294967295",
        "Ok(Piece { media: MediaId(4294967295), offset: 4294967295 })",
    ),
    (Verb::Put, "/media/4294967296/0", "Err(Path)"),
    (Verb::Put, "/media/1/4294967296", "Err(Path)"),
    (Verb::Put, "/media/18446744073709551617/0", "Err(Path)"),
    (Verb::Put, "/media/0/0", "Err(Path)"),
    (Verb::Put, "/media/01/0", "Err(Path)"),
    (Verb::Put, "/media/1/00", "Err(Path)"),
    (Verb::Put, "/media/+1/0", "Err(Path)"),
    (Verb::Put, "/media/x/0", "Err(Path)"),
    (Verb::Get, "/media/x/0", "Err(Method(Put))"),
    (Verb::Get, "/media/1/0", "Err(Method(Put))"),
    (Verb::Get, "/media/1/0?x", "Err(Path)"),
    (Verb::Get, "/media//0", "Err(Path)"),
    (Verb::Put, "/media/1", "Err(Path)"),
    (Verb::Put, "/media/1/0/2", "Err(Path)"),
    (
        Verb::Get,
        "/reports/plays/0/4102444799",
        "Ok(Report { from: Moment(0), to: Moment(4102444799) })",
    ),
    (
        Verb::Get,
        "/reports/plays/5/4",
        "Ok(Report { from: Moment(5), to: Moment(4) })",
    ),
    (Verb::Get, "/reports/plays/0/4102444800", "Err(Path)"),
    (Verb::Get, "/reports/plays/0", "Err(Path)"),
    (Verb::Get, "/reports/{}/0/1", "Err(Path)"),
    (Verb::Post, "/displays/9/enrol", "Ok(Enrol(DisplayId(9)))"),
    (Verb::Put, "/displays/9/enrol", "Err(Method(Post))"),
    (
        Verb::Get,
        "/displays/9/manifest",
        "Ok(Manifest(DisplayId(9)))",
    ),
    (Verb::Get, "/displays/{}/manifest", "Err(Path)"),
    (Verb::Get, "/displays//manifest", "Err(Path)"),
    (
        Verb::Get,
        "/displays/9/files/8/65536",
        "Ok(File { display: DisplayId(9), media: MediaId(8), offset: 65536 })",
    ),
    (Verb::Get, "/displays/9/files/8", "Err(Path)"),
    (Verb::Post, "/displays/7/plays", "Ok(Plays(DisplayId(7)))"),
    (Verb::Get, "/displays/7/play", "Err(Path)"),
    (Verb::Get, "/", "Err(Path)"),
    (Verb::Get, "*", "Err(Path)"),
];

fn each_asks(rt: &impl Abort, alloc: Global, cases: &[Case]) -> Result<(), Fail> {
    for (verb, target, asks) in cases {
        let asked = format!(in alloc; "{:?}", ask(*verb, target.as_bytes()))?;
        assert_eq!(rt; asked.as_str(), *asks, "{target}");
    }
    Ok(())
}

#[test]
fn a_method_and_a_target_ask_for_this(rt: HostRuntime) -> Result<(), Fail> {
    each_asks(&rt, rt.alloc(), &CASES)
}

fn router(alloc: Global) -> Result<Router<Route>, InsertError> {
    let mut router = Router::new(alloc);
    router.insert("/edits", Route::Edits)?;
    router.insert("/media/{media}/{offset}", Route::Media)?;
    router.insert("/reports/plays/{from}/{to}", Route::Report)?;
    router.insert("/displays/{display}/enrol", Route::Enrol)?;
    router.insert("/displays/{display}/manifest", Route::Manifest)?;
    router.insert("/displays/{display}/files/{media}/{offset}", Route::File)?;
    router.insert("/displays/{display}/plays", Route::Plays)?;
    Ok(router)
}

// How many of the targets have a route, of which the router finds the same.
fn each_is_found(rt: &impl Abort, router: &Router<Route>, cases: &[Case]) -> u32 {
    let mut found = 0u32;
    for (_, target, _) in cases {
        let other = router.at(target).ok().map(|found| *found.value);
        assert_eq!(rt; route_of(target.as_bytes()), other, "{target}");
        if other.is_some() {
            found = found.saturating_add(1);
        }
    }
    found
}

#[test]
fn another_router_finds_the_same_route(rt: HostRuntime) -> Result<(), Fail> {
    let router = router(rt.alloc())?;
    assert_eq!(rt; each_is_found(&rt, &router, &CASES), 25);
    Ok(())
}
