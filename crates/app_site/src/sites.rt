//! A service for each connection.
use http_services::CountedService;
use matchit::Router;
use serve_async::Services;
use site::{Route, Site};
use std::alloc::Global;

/// Gives each connection a site of its own, with these routes.
#[derive(Drop)]
pub struct Sites<'a> {
    alloc: Global,
    routes: &'a Router<Route>,
}

impl<'a> Sites<'a> {
    pub fn new(alloc: Global, routes: &'a Router<Route>) -> Sites<'a> {
        Sites { alloc, routes }
    }
}

impl<'a> Services<CountedService<Site<'a>>> for Sites<'a> {
    fn service(&self) -> CountedService<Site<'a>> {
        CountedService::new(Site::new(self.alloc, self.routes))
    }
}
