//! All visitors.
ghost use Rattle.std.specs.Prelude.{◌≡◌, length, All, IfOk, IfSome, None, is_some, slice_get};
ghost use Rattle.std.specs.List.{AllZip, list_any};
ghost use Rattle.fax_http.specs.visitors.Visits.{AsksAt, HasPath, IsAnsweredAt, IsCame, IsServedPlace, PlaceGoes, is_for_picture};

use crate::visitors::place::Place;
use crate::{Answer, Question, Resource, Wanted};
use mio::net::{TcpListener, TcpStream};
use std::alloc::Global;
use std::io;
use std::marker::Model;
use std::net::{Net, SocketAddr};

/// The most visitors at one time.
pub const MOST_VISITORS: usize = 16;

/// Who looks at a server over HTTP: at most 16 at one time. Where one more comes, the one goes that has been silent longest.
pub struct Visitors {
    alloc: Global,
    listener: TcpListener,
    places: Vec<Place>,
}

impl Drop for Visitors {
    fn drop(self) {
        let Visitors {
            alloc: _alloc,
            listener: _listener,
            places: _places,
        } = self;
    }
}

/// Contracts see each place: the connection of who is there.
impl Model for Visitors {
    ghost use Rattle.std.specs.Prelude.{◌≡◌, length, List, Option};
    ghost use Rattle.fax_http.specs.Connections.{ConnectionValue};

    ghost Value = { List (Option ConnectionValue) };

    ghost view = { λ v. v.places.items };

    ghost invariant = { λ v. length v.places.items ≡ 16 };
}

impl Visitors {
    /// Listens at an address. An `Err` is that of the system, or says that memory was refused.
    pub fn listen<N: Net>(net: &N, alloc: Global, address: SocketAddr) -> io::Result<Self>
        ensures { IfOk result (λ visitors. All (λ there. there ≡ None) visitors) }
    {
        let listener = TcpListener::bind(net, address)?;
        let mut places = Vec::with_capacity(alloc, MOST_VISITORS)?;
        for _ in 0..MOST_VISITORS {
            places.push(Place::new())?;
        }
        Ok(Visitors {
            alloc,
            listener,
            places,
        })
    }

    /// Reads what visitors said, writes what they take, and lets in who comes, without waiting, at this moment in milliseconds.
    pub fn serve(&mut self, now: u64)
        ensures each { AllZip PlaceGoes self.old self.new }
        ensures few { length self.new ≡ MOST_VISITORS }
    {
        go_on(self.places.as_mut_slice(), &self.listener, self.alloc, now);
    }

    /// Whether anybody is there.
    pub fn are_there(&self) -> bool
        ensures { result ≡ list_any is_some self.now }
    {
        self.places.iter().any(|place| place.is_there())
    }

    /// A place whose visitor asks for a picture, or for something else, as is told, that was not answered, and what.
    pub fn asked(&self, is_picture: bool) -> Option<(usize, Question)>
        ensures asks { IfSome result (λ asked. AsksAt self.now asked.0 asked.1) }
        ensures kind { IfSome result (λ asked. is_for_picture asked.1 ≡ is_picture) }
    {
        asked(self.places.as_slice(), is_picture)
    }

    /// The path that the visitor at a place asks for.
    pub fn path(&self, place: usize) -> Option<&[u8]>
        ensures { IfSome result (λ path. IfSome (slice_get self.now place) (HasPath path.now)) }
    {
        match self.places.get(place) {
            Some(there) => there.path(),
            None => None,
        }
    }

    /// The visitor at a place is answered. Without memory for that it goes.
    pub fn answer(&mut self, place: usize, answer: &Answer<'_>)
        ensures { IsAnsweredAt answer.now place self.old self.new }
    {
        answer_at(self.places.as_mut_slice(), place, answer);
    }
}

/// Each visitor is read and written to, and who comes is let in.
fn go_on(places: &mut [Place], listener: &TcpListener, alloc: Global, now: u64)
    ensures { AllZip PlaceGoes places.old places.new }
{
    serve(places, now);
    let_in(places, listener, alloc, now);
}

/// Each visitor is read and written to.
fn serve(places: &mut [Place], now: u64)
    ensures { AllZip IsServedPlace places.old places.new }
{
    for place in places.iter_mut() {
        place.serve(now);
    }
}

/// Lets in who comes.
fn let_in(places: &mut [Place], listener: &TcpListener, alloc: Global, now: u64)
    ensures { AllZip IsCame places.old places.new }
{
    for _ in 0..MOST_VISITORS {
        match listener.accept() {
            Ok((stream, _)) => admit(places, stream, alloc, now),
            Err(_) => return,
        }
    }
}

/// One comes in.
fn admit(places: &mut [Place], stream: TcpStream, alloc: Global, now: u64)
    ensures { AllZip IsCame places.old places.new }
{
    let place = place_for(places);
    if place < places.len() {
        places[place].fill(alloc, stream, now);
    }
}

/// A place whose visitor asks for a picture, or for something else, as is told, that was not answered, and what.
fn asked(places: &[Place], is_picture: bool) -> Option<(usize, Question)>
    ensures asks { IfSome result (λ asked. AsksAt places.now asked.0 asked.1) }
    ensures kind { IfSome result (λ asked. is_for_picture asked.1 ≡ is_picture) }
{
    for (place, there) in places.iter().enumerate() {
        if let Some(question) = there.asked() {
            if is_for_picture(question) == is_picture {
                return Some((place, question));
            }
        }
    }
    None
}

/// Whether a picture is asked for.
fn is_for_picture(question: Question) -> bool
    ensures { result ≡ is_for_picture question }
{
    question.wanted == Wanted::Tell(Resource::Picture)
}

/// The place for one more: one that is free, or that of the visitor that has been silent longest.
fn place_for(places: &[Place]) -> usize {
    let mut found = 0;
    let mut least = u64::MAX;
    for (place, there) in places.iter().enumerate() {
        if !there.is_there() {
            return place;
        }
        if there.last() < least {
            least = there.last();
            found = place;
        }
    }
    found
}

/// The visitor at a place is answered.
fn answer_at(places: &mut [Place], place: usize, answer: &Answer<'_>)
    ensures { IsAnsweredAt answer.now place places.old places.new }
{
    if place < places.len() {
        places[place].answer(answer);
    }
}
