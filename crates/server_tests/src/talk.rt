// What clients and operators of a life send and receive.
use crate::lives::of_socket;
use crate::wire::wire;
use lnsd_life::Order;
use lw_types::Refusal;
use std::alloc::Global;
use std::io::{Read, Write};
use std::net::{Net, SocketAddr, TcpStream};
use std::os::unix::net;
use std::os::unix::net::UnixStream;

/// Sends this on a link.
pub fn say(alloc: Global, link: &mut TcpStream, text: &str) -> Result<(), Refusal> {
    of_socket(link.write_all(wire(alloc, text)?.as_slice()))
}

/// A link on which this is sent first.
pub fn connect<R: Net<Stream = TcpStream>>(
    rt: &R,
    alloc: Global,
    address: SocketAddr,
    text: &str,
) -> Result<TcpStream, Refusal> {
    let mut link = of_socket(TcpStream::connect(rt, address))?;
    say(alloc, &mut link, text)?;
    Ok(link)
}

/// Whether this is received next on a link.
pub fn hears(alloc: Global, link: &mut TcpStream, text: &str) -> Result<bool, Refusal> {
    let wanted = wire(alloc, text)?;
    let mut heard = vec![in alloc; 0; wanted.len()]?;
    of_socket(link.read_exact(heard.as_mut_slice()))?;
    Ok(heard.as_slice() == wanted.as_slice())
}

/// Whether a link ends, and nothing more is received on it.
pub fn ends(link: &mut TcpStream) -> bool {
    link.read(&mut [0; 1]).is_ok_and(|count| count == 0)
}

/// Sends an order. Its answer is all that comes then.
pub fn order<R: Net>(rt: &R, at: &net::SocketAddr, order: Order) -> Result<UnixStream, Refusal> {
    let mut stream = of_socket(UnixStream::connect_addr(rt, at))?;
    of_socket(stream.write_all(order.word().as_bytes()))?;
    of_socket(stream.write_all(b"\n"))?;
    Ok(stream)
}

/// The answer to an order.
pub fn answer<R: Net>(
    rt: &R,
    alloc: Global,
    at: &net::SocketAddr,
    asked: Order,
) -> Result<String, Refusal> {
    let mut text = String::new(alloc);
    let mut stream = order(rt, at, asked)?;
    of_socket(stream.read_to_string(&mut text))?;
    Ok(text)
}

/// Whether this is received first.
pub fn starts(alloc: Global, stream: &UnixStream, text: &str) -> Result<bool, Refusal> {
    let mut stream = stream;
    let mut heard = vec![in alloc; 0; text.len()]?;
    of_socket(stream.read_exact(heard.as_mut_slice()))?;
    Ok(heard.as_slice() == text.as_bytes())
}
