// The program `follow`: whether one sheet can follow another. The first argument names a page; behind it come two by two a file of requests
// and the next page. The work on pages and lines is done by `showing` and `comparing`; here are only the arguments, the files and the
// output.
#![tactic(auto)]

mod arguments;
mod pages;
mod requests;
mod screen;
mod steps;

use arguments::Source;
use screen::Screen;
use streams::Stopped;
use tables::Tables;

// Shows the page that argument 1 names, and answers its tables, if it is one.
fn show_first(screen: &mut Screen, room: &mut [u8]) -> Result<Option<Tables>, Stopped> {
    let page = pages::show(screen, Source { argument: 1 }, room)?;
    Ok(page.map(|page| page.tables))
}

// The room comes as an array, whose length its type tells. The system counts the program's own name among the arguments.
fn run(rt: &HostRuntime, screen: &mut Screen, room: &mut [u8; pages::ROOM]) -> Result<(), Stopped> {
    let count = streams::count_arguments(rt);
    if count < 2 || count % 2 == 1 {
        screen
            .output
            .put(b"usage: follow FIRST.page [REQUESTS NEXT.page ...]\n")?;
        return screen.output.finish();
    }
    let mut tables = show_first(screen, room)?;
    for step in 1..count / 2 {
        let requests = Source { argument: 2 * step };
        let next = Source {
            argument: 2 * step + 1,
        };
        tables = steps::take_step(screen, requests, next, &tables, room)?;
    }
    screen.output.finish()
}

fn main(rt: HostRuntime) {
    let mut screen = Screen::new(&rt);
    let mut room = [0; pages::ROOM];
    // What stopped it was said.
    let _ = run(&rt, &mut screen, &mut room);
}
