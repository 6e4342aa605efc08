//! Laws of the definitions: functions that do nothing, each of whose contracts is a theorem.
ghost use Rattle.fax_laws.specs.delivery.Datagrams.{DatagramsGetThrough};
ghost use Rattle.fax_laws.specs.delivery.Gateways.{GatewaysPassJobs, GatewaysPassPages, ReportsAreDeliveries, ReportsAreOfJobs};
ghost use Rattle.fax_laws.specs.delivery.Jobs.{JobsGetThrough, JobsPass};
ghost use Rattle.fax_laws.specs.delivery.Delivered.{NewMachinesMayBegin, OverIsDelivered, PagesGetThrough, ReadersAre};

/// Over a link that hands on each packet once and in order every page is delivered: the caller tells so, with one page, and the
/// answerer confirmed that page and no other. The call takes a round of 40 ms for each 72 octets of the page's text, and at most
/// 350 more.
pub fn pages_get_through()
    ensures { PagesGetThrough }
{}

/// So it is by datagrams, whatever the redundancy of each machine.
pub fn datagrams_get_through()
    ensures { DatagramsGetThrough }
{}

/// A job of any pages, each of its format, gets through in one call, over a link that hands on each packet once and in order, and by
/// datagrams: the caller tells that it was delivered, with all its pages, and the answerer confirmed these and no other, each once, in
/// their order. After a page comes MPS, or EOM where the next one is of another format, and EOP after the last. The call takes a round of
/// 40 ms for each 72 octets of the pages' texts, 350 more, and 450 for each page after the first.
pub fn jobs_get_through()
    ensures packets { JobsGetThrough }
    ensures datagrams { JobsPass }
{}

/// There are such calls: images can be read rightly, and a new machine may begin at any moment.
pub fn such_calls_are()
    ensures readers { ReadersAre }
    ensures begin { NewMachinesMayBegin }
{}

/// And so it is through a gateway between two machines, which is called with the page and calls with it: its book tells that the job
/// was delivered, and the machine that is called confirmed this page and no other. It takes the rounds of two calls at most.
pub fn gateways_pass_pages()
    ensures { GatewaysPassPages }
{}

/// As soon as the caller's call is over the page is delivered: no other end is told, and none too soon.
pub fn over_is_delivered()
    ensures { OverIsDelivered }
{}

/// And at every moment the gateway's book has no report, or just that one: it tells no other end, and none before the machine that is
/// called has confirmed the page.
pub fn reports_are_deliveries()
    ensures { ReportsAreDeliveries }
{}

/// A job of any pages, each of its format, gets through a gateway between two machines: its book tells that the one job was delivered,
/// with all its pages, and the machine that is called confirmed these and no other, each once, in their order; and at every moment the
/// book has no report, or just that one. It takes the rounds of two calls at most.
pub fn gateways_pass_jobs()
    ensures pass { GatewaysPassJobs }
    ensures reports { ReportsAreOfJobs }
{}
