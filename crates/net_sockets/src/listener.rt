// The address that is listened at.
ghost use Rattle.std.specs.Prelude.{◌≡◌, ◌<◌, None, IfOk};

use super::share::{Share, Shares};
use host_base::NoMemory;
use mio::net::{TcpListener, TcpStream};
use std::alloc::{AllocError, Global};
use std::io;
use std::marker::Model;
use std::net::{IpAddr, Net, SocketAddr};
use std::os::fd::{AsRawFd, RawFd};
use std::sync::Arc;

/// A listening socket. Each client that connects is taken by one of those who share it. Contracts see its address and its
/// port.
#[derive(Drop)]
pub struct Listener {
    socket: Arc<TcpListener>,
    shares: Shares,
    address: IpAddr,
    port: u16,
}

impl Model for Listener {
    ghost use Rattle.net_sockets.specs.Listens.{ListensAt};

    ghost Value = { ListensAt };

    ghost view = { λ listener. record { address = listener.address; port = listener.port } };
}

impl Listener {
    // Listens at an address, also where connections of an earlier server are still closing there (SO_REUSEADDR).
    pub(crate) fn bind<N: Net>(
        net: &N,
        alloc: Global,
        address: IpAddr,
        port: u16,
    ) -> io::Result<Self>
        ensures address { IfOk result (λ listener. listener.address ≡ address) }
        ensures port { IfOk result (λ listener. 0 < port → listener.port ≡ port) }
    {
        let socket = TcpListener::bind(net, SocketAddr::new(address, port))?;
        let port = if port == 0 {
            socket.local_addr()?.port()
        } else {
            port
        };
        Ok(Listener {
            socket: Arc::new(alloc, socket)?,
            shares: Shares::new(alloc)?,
            address,
            port,
        })
    }

    /// The same, to be shared with another loop.
    pub fn another(&self) -> Result<Self, NoMemory>
        ensures { IfOk result (λ other. other ≡ self.now) }
    {
        Ok(Listener {
            socket: Arc::try_clone(&self.socket)?,
            shares: self.shares.another()?,
            address: self.address,
            port: self.port,
        })
    }

    /// The port that is listened at.
    pub fn port(&self) -> u16
        ensures { result ≡ self.now.port }
    {
        self.port
    }

    // What one more loop has of its clients.
    pub(crate) fn share(&self) -> Result<Share, AllocError>
        ensures { IfOk result (λ share. share.left_in ≡ None) }
    {
        Ok(self.shares.another()?.join())
    }

    pub(crate) fn accept(&self) -> io::Result<(TcpStream, SocketAddr)> {
        self.socket.accept()
    }

    pub(crate) fn descriptor(&self) -> RawFd {
        self.socket.as_raw_fd()
    }
}
