//! Tests of the ports of designs, and of the rows in which they stand.
#![tactic(auto)]

#[cfg(test)]
mod large_designs;
#[cfg(test)]
mod port_designs;
#[cfg(test)]
mod port_seats;
#[cfg(test)]
mod refused_ports;
#[cfg(test)]
mod shown_ports;
