//! Cases on dialogs, transactions, best responses, names, the choice of applications, queues and
//! lists in pages.
//! A crate with tests is proved twice, so they stand here.
#![tactic(auto)]

#[cfg(test)]
mod best_tests;
#[cfg(test)]
mod dialog_tests;
#[cfg(test)]
mod due_tests;
#[cfg(test)]
mod names_tests;
#[cfg(test)]
mod pages_tests;
#[cfg(test)]
mod queue_tests;
#[cfg(test)]
mod router_tests;
#[cfg(test)]
mod txn_tests;
