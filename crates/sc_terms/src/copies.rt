//! Copies and comparisons of views and events, and letting go of what is large.

use crate::{Answer, CallRecord, Event, RequestView, SessionView, Step, TimerView, View};
use sc_value::{CloneIn, Discard, NoMemory, Same};
use std::alloc::Global;

impl CloneIn for SessionView {
    fn clone_in(&self, alloc: Global) -> Result<SessionView, NoMemory> {
        Ok(SessionView {
            id: self.id,
            state: self.state,
            role: self.role,
            call_id: self.call_id.clone_in(alloc)?,
            own_tag: self.own_tag.clone_in(alloc)?,
            peer_tag: self.peer_tag.clone_in(alloc)?,
            linked: self.linked,
            ready_flag: self.ready_flag,
            gone: self.gone,
        })
    }
}

impl Same for SessionView {
    fn same(&self, other: &SessionView) -> bool {
        self.id == other.id
            && self.state == other.state
            && self.role == other.role
            && self.call_id.same(&other.call_id)
            && self.own_tag.same(&other.own_tag)
            && self.peer_tag.same(&other.peer_tag)
            && self.linked.same(&other.linked)
            && self.ready_flag == other.ready_flag
            && self.gone == other.gone
    }
}

impl CloneIn for RequestView {
    fn clone_in(&self, alloc: Global) -> Result<RequestView, NoMemory> {
        Ok(RequestView {
            id: self.id,
            sess: self.sess,
            method: self.method.clone_in(alloc)?,
            received: self.received,
            initial: self.initial,
            hops: self.hops,
            answered: self.answered,
            proxied: self.proxied,
            branches: self.branches,
            unacked: self.unacked.clone_in(alloc)?,
            ends: self.ends,
        })
    }
}

impl Same for RequestView {
    fn same(&self, other: &RequestView) -> bool {
        self.id == other.id
            && self.sess == other.sess
            && self.method.same(&other.method)
            && self.received == other.received
            && self.initial == other.initial
            && self.hops == other.hops
            && self.answered.same(&other.answered)
            && self.proxied == other.proxied
            && self.branches == other.branches
            && self.unacked.same(&other.unacked)
            && self.ends == other.ends
    }
}

impl CloneIn for TimerView {
    fn clone_in(&self, alloc: Global) -> Result<TimerView, NoMemory> {
        Ok(TimerView {
            id: self.id,
            due: self.due,
            period: self.period,
            info: self.info.clone_in(alloc)?,
        })
    }
}

impl Same for TimerView {
    fn same(&self, other: &TimerView) -> bool {
        self.id == other.id
            && self.due == other.due
            && self.period == other.period
            && self.info.same(&other.info)
    }
}

impl CloneIn for View {
    fn clone_in(&self, alloc: Global) -> Result<View, NoMemory> {
        Ok(View {
            app: self.app,
            epoch: self.epoch,
            salt: self.salt.clone_in(alloc)?,
            ip: self.ip,
            params: self.params.clone_in(alloc)?,
            now: self.now,
            expires: self.expires,
            ready_flag: self.ready_flag,
            counter: self.counter,
            next_request: self.next_request,
            next_timer: self.next_timer,
            attributes: self.attributes.clone_in(alloc)?,
            sessions: self.sessions.clone_in(alloc)?,
            requests: self.requests.clone_in(alloc)?,
            timers: self.timers.clone_in(alloc)?,
        })
    }
}

impl Same for View {
    fn same(&self, other: &View) -> bool {
        self.app == other.app
            && self.epoch == other.epoch
            && self.salt.same(&other.salt)
            && self.ip == other.ip
            && self.params.same(&other.params)
            && self.now == other.now
            && self.expires.same(&other.expires)
            && self.ready_flag == other.ready_flag
            && self.counter == other.counter
            && self.next_request == other.next_request
            && self.next_timer == other.next_timer
            && self.attributes.same(&other.attributes)
            && self.sessions.same(&other.sessions)
            && self.requests.same(&other.requests)
            && self.timers.same(&other.timers)
    }
}

impl CloneIn for Event {
    fn clone_in(&self, alloc: Global) -> Result<Event, NoMemory> {
        match self {
            Event::Initial {
                req,
                sess,
                region,
                subscriber,
                popped,
                request,
            } => Ok(Event::Initial {
                req: *req,
                sess: *sess,
                region: *region,
                subscriber: subscriber.clone_in(alloc)?,
                popped: popped.clone_in(alloc)?,
                request: request.clone_in(alloc)?,
            }),
            Event::Request { req, sess, request } => Ok(Event::Request {
                req: *req,
                sess: *sess,
                request: request.clone_in(alloc)?,
            }),
            Event::Response {
                req,
                sess,
                response,
            } => Ok(Event::Response {
                req: *req,
                sess: *sess,
                response: response.clone_in(alloc)?,
            }),
            Event::Branch {
                req,
                sess,
                response,
            } => Ok(Event::Branch {
                req: *req,
                sess: *sess,
                response: response.clone_in(alloc)?,
            }),
            Event::Cancelled { req, sess } => Ok(Event::Cancelled {
                req: *req,
                sess: *sess,
            }),
            Event::Timer { id, info } => Ok(Event::Timer {
                id: *id,
                info: info.clone_in(alloc)?,
            }),
            Event::Expired => Ok(Event::Expired),
            Event::Ready => Ok(Event::Ready),
        }
    }
}

impl Same for Event {
    fn same(&self, other: &Event) -> bool {
        match self {
            Event::Initial {
                req,
                sess,
                region,
                subscriber,
                popped,
                request,
            } => match other {
                Event::Initial {
                    req: other_req,
                    sess: other_sess,
                    region: other_region,
                    subscriber: other_subscriber,
                    popped: other_popped,
                    request: other_request,
                } => {
                    *req == *other_req
                        && *sess == *other_sess
                        && *region == *other_region
                        && subscriber.same(other_subscriber)
                        && popped.same(other_popped)
                        && request.same(other_request)
                }
                _ => false,
            },
            Event::Request { req, sess, request } => match other {
                Event::Request {
                    req: other_req,
                    sess: other_sess,
                    request: other_request,
                } => *req == *other_req && *sess == *other_sess && request.same(other_request),
                _ => false,
            },
            Event::Response {
                req,
                sess,
                response,
            } => match other {
                Event::Response {
                    req: other_req,
                    sess: other_sess,
                    response: other_response,
                } => *req == *other_req && *sess == *other_sess && response.same(other_response),
                _ => false,
            },
            Event::Branch {
                req,
                sess,
                response,
            } => match other {
                Event::Branch {
                    req: other_req,
                    sess: other_sess,
                    response: other_response,
                } => *req == *other_req && *sess == *other_sess && response.same(other_response),
                _ => false,
            },
            Event::Cancelled { req, sess } => match other {
                Event::Cancelled {
                    req: other_req,
                    sess: other_sess,
                } => *req == *other_req && *sess == *other_sess,
                _ => false,
            },
            Event::Timer { id, info } => match other {
                Event::Timer {
                    id: other_id,
                    info: other_info,
                } => *id == *other_id && info.same(other_info),
                _ => false,
            },
            Event::Expired => match other {
                Event::Expired => true,
                _ => false,
            },
            Event::Ready => match other {
                Event::Ready => true,
                _ => false,
            },
        }
    }
}

impl Discard for View {
    fn discard(self) {
        drop(self);
    }
}

impl Discard for Event {
    fn discard(self) {
        drop(self);
    }
}

impl Discard for Answer {
    fn discard(self) {
        drop(self);
    }
}

impl Discard for CallRecord {
    fn discard(self) {
        drop(self);
    }
}

impl Discard for Step {
    fn discard(self) {
        drop(self);
    }
}
