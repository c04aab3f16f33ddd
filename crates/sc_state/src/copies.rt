//! Copies of what a session, a host and the net are made of.

use crate::{
    Branch, Client, Fired, Got, Invited, Kept, Known, Leg, Live, Note, Passing, Proxy, Queued,
    Server, Session, Waiting,
};
use sc_value::{CloneIn, NoMemory};
use std::alloc::Global;

impl CloneIn for Got {
    fn clone_in(&self, alloc: Global) -> Result<Got, NoMemory> {
        Ok(Got {
            tag: self.tag.clone_in(alloc)?,
            number: self.number,
        })
    }
}

impl CloneIn for Leg {
    fn clone_in(&self, alloc: Global) -> Result<Leg, NoMemory> {
        let caller = self.caller.clone_in(alloc)?;
        let got = self.got.clone_in(alloc)?;
        let dialog = self.dialog.clone_in(alloc)?;
        Ok(Leg {
            id: self.id,
            first: self.first,
            caller,
            dialog,
            got,
            invalidated: self.invalidated,
            overtaken: self.overtaken,
        })
    }
}

impl CloneIn for Kept {
    fn clone_in(&self, alloc: Global) -> Result<Kept, NoMemory> {
        Ok(Kept {
            id: self.id,
            sess: self.sess,
            way: self.way,
            request: self.request.clone_in(alloc)?,
        })
    }
}

impl CloneIn for Invited {
    fn clone_in(&self, _alloc: Global) -> Result<Invited, NoMemory> {
        Ok(*self)
    }
}

impl CloneIn for Branch {
    fn clone_in(&self, _alloc: Global) -> Result<Branch, NoMemory> {
        Ok(*self)
    }
}

impl CloneIn for Passing {
    fn clone_in(&self, alloc: Global) -> Result<Passing, NoMemory> {
        Ok(Passing {
            sess: self.sess,
            response: self.response.clone_in(alloc)?,
        })
    }
}

impl CloneIn for Proxy {
    fn clone_in(&self, alloc: Global) -> Result<Proxy, NoMemory> {
        let request = self.request.clone_in(alloc)?;
        let tried = self.tried.clone_in(alloc)?;
        let targets = self.targets.clone_in(alloc)?;
        let branches = self.branches.clone_in(alloc)?;
        let candidates = self.candidates.clone_in(alloc)?;
        let passing = self.passing.clone_in(alloc)?;
        Ok(Proxy {
            req: self.req,
            sess: self.sess,
            event: self.event,
            request,
            options: self.options,
            tried,
            targets,
            branches,
            candidates,
            passing,
            forwarded: self.forwarded,
            settled: self.settled,
            heard_final: self.heard_final,
        })
    }
}

impl CloneIn for Known {
    fn clone_in(&self, alloc: Global) -> Result<Known, NoMemory> {
        let legs = self.legs.clone_in(alloc)?;
        let kept = self.kept.clone_in(alloc)?;
        let invited = self.invited.clone_in(alloc)?;
        let proxies = self.proxies.clone_in(alloc)?;
        Ok(Known {
            region: self.region,
            order: self.order,
            legs,
            kept,
            invited,
            proxies,
        })
    }
}

impl CloneIn for Session {
    fn clone_in(&self, alloc: Global) -> Result<Session, NoMemory> {
        let known = self.known.clone_in(alloc)?;
        let view = self.view.clone_in(alloc)?;
        Ok(Session { view, known })
    }
}

impl CloneIn for Queued {
    fn clone_in(&self, alloc: Global) -> Result<Queued, NoMemory> {
        match self {
            Queued::Initial {
                region,
                subscriber,
                popped,
                request,
            } => {
                let subscriber = subscriber.clone_in(alloc)?;
                let popped = popped.clone_in(alloc)?;
                let request = request.clone_in(alloc)?;
                Ok(Queued::Initial {
                    region: *region,
                    subscriber,
                    popped,
                    request,
                })
            }
            Queued::Request { request } => {
                let request = request.clone_in(alloc)?;
                Ok(Queued::Request { request })
            }
            Queued::Response { branch, response } => {
                let response = response.clone_in(alloc)?;
                Ok(Queued::Response {
                    branch: *branch,
                    response,
                })
            }
            Queued::Cancelled { event } => Ok(Queued::Cancelled { event: *event }),
            Queued::Timer { id } => Ok(Queued::Timer { id: *id }),
            Queued::BranchTimer { branch, due } => Ok(Queued::BranchTimer {
                branch: *branch,
                due: *due,
            }),
            Queued::Expired => Ok(Queued::Expired),
            Queued::Ready => Ok(Queued::Ready),
        }
    }
}

impl CloneIn for Waiting {
    fn clone_in(&self, alloc: Global) -> Result<Waiting, NoMemory> {
        Ok(Waiting {
            number: self.number,
            event: self.event.clone_in(alloc)?,
        })
    }
}

impl CloneIn for Fired {
    fn clone_in(&self, _alloc: Global) -> Result<Fired, NoMemory> {
        Ok(*self)
    }
}

impl CloneIn for Client {
    fn clone_in(&self, alloc: Global) -> Result<Client, NoMemory> {
        let request = self.request.clone_in(alloc)?;
        let passed = self.passed.clone_in(alloc)?;
        Ok(Client {
            app: self.app,
            branch: self.branch,
            peer: self.peer,
            request,
            sent: self.sent,
            passed,
        })
    }
}

impl CloneIn for Server {
    fn clone_in(&self, alloc: Global) -> Result<Server, NoMemory> {
        let tag = self.tag.clone_in(alloc)?;
        let request = self.request.clone_in(alloc)?;
        let passed = self.passed.clone_in(alloc)?;
        let last = self.last.clone_in(alloc)?;
        Ok(Server {
            app: self.app,
            event: self.event,
            peer: self.peer,
            tag,
            request,
            passed,
            last,
        })
    }
}

impl<S: Drop> CloneIn for Live<S> {
    fn clone_in(&self, alloc: Global) -> Result<Live<S>, NoMemory> {
        let session = self.session.clone_in(alloc)?;
        let inbox = self.inbox.clone_in(alloc)?;
        let fired = self.fired.clone_in(alloc)?;
        Ok(Live {
            serial: self.serial,
            session,
            inbox,
            since: self.since,
            fired,
        })
    }
}

impl CloneIn for Note {
    fn clone_in(&self, alloc: Global) -> Result<Note, NoMemory> {
        let subscriber = self.subscriber.clone_in(alloc)?;
        let popped = self.popped.clone_in(alloc)?;
        Ok(Note {
            order: self.order,
            region: self.region,
            subscriber,
            popped,
        })
    }
}
