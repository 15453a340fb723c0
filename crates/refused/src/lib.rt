// What no program reaches: refusals and awaiting boards, met through the public calls of the libraries.
#![tactic(auto)]

#[cfg(test)]
mod tests;
